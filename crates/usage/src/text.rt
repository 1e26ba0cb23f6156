// The text of a report, and of a refusal.
ghost use Rattle.std.specs.Prelude.{◌+◌, ◌<◌, ◌≤◌, length};
ghost use Rattle.number_text.specs.Text.{Line};
ghost use Rattle.octets.specs.Octets.{Wrote};
ghost use Rattle.usage.specs.Report.{total_in};
ghost use Rattle.usage.specs.Usage.{line_text, refused_text, report_text, scope_lines, total_line, total_lines};

use crate::Totals;
use state::State;

fn put_tenant(
    buffer: &mut [u8],
    at: usize,
    state: State,
    totals: Totals,
    k: usize,
    g: usize,
) -> usize
    requires { (at + 58 ≤ length buffer.old) × (k < 4) × (g < 8) }
    ensures { Line buffer.old at (total_line state (total_in totals) k g) buffer.new result 58 }
{
    let c = state::scope_at(state, k);
    put_line(
        buffer,
        at,
        c.lowest,
        (g + 1) as u64,
        totals.scopes[k].tenants[g],
    )
}

fn put_line(buffer: &mut [u8], at: usize, a: u32, g: u64, total: u64) -> usize
    requires { at + 58 ≤ length buffer.old }
    ensures { Line buffer.old at (line_text a g total) buffer.new result 58 }
{
    let x = number_text::put_dotted(buffer, at, a);
    let y = number_text::put_field(buffer, x, g);
    let z = number_text::put_field(buffer, y, total);
    number_text::put_char(buffer, z, 10)
}

fn put_scope(buffer: &mut [u8], at: usize, state: State, totals: Totals, k: usize) -> usize
    requires { (at + 464 ≤ length buffer.old) × (k < 4) }
    ensures { Line buffer.old at (scope_lines state (total_in totals) k) buffer.new result 464 }
{
    let mut to = at;
    for g in 0..usize::from(state.tenant_count).min(8) {
        to = put_tenant(buffer, to, state, totals, k, g);
    }
    to
}

fn put_scopes(buffer: &mut [u8], at: usize, state: State, totals: Totals) -> usize
    requires { at + 1856 ≤ length buffer.old }
    ensures { Line buffer.old at (total_lines state (total_in totals)) buffer.new result 1856 }
{
    let mut to = at;
    for k in 0..usize::from(state.scope_count).min(4) {
        to = put_scope(buffer, to, state, totals, k);
    }
    to
}

pub fn put_report(buffer: &mut [u8], state: State, totals: Totals) -> usize
    requires { 4096 ≤ length buffer.old }
    ensures { Wrote buffer.old 0 (report_text state (total_in totals)) buffer.new result }
{
    let a = octets::put_run(buffer, 0, b"scope house total\n", 18);
    put_scopes(buffer, a, state, totals)
}

pub fn put_refused(buffer: &mut [u8], n: u8, place: u64) -> usize
    requires { 4096 ≤ length buffer.old }
    ensures { Wrote buffer.old 0 (refused_text n place) buffer.new result }
{
    let a = octets::put_run(buffer, 0, b"refused", 7);
    let b = number_text::put_field(buffer, a, u64::from(n));
    let c = number_text::put_field(buffer, b, place);
    number_text::put_char(buffer, c, 10)
}
