// The octets of a book, section by section, into a buffer that is long enough.
ghost use Rattle.std.specs.Prelude.{[], ◌++◌, ◌∷◌, ◌+◌, ◌≤◌, length};
ghost use Rattle.octets.specs.Octets.{Wrote, octets32};
ghost use Rattle.state.specs.Book.{ranges_of, scopes_of};
ghost use Rattle.state_file.specs.File.{scope_format, tenant_format};
ghost use Rattle.state_file.specs.Records.{filed_scope};
ghost use Rattle.state_file.specs.Rows.{file_range_octets, file_scope_octets, part_octets, section_octets};
ghost use Rattle.state_file.specs.StateFile.{octets_as};

use state::{ClientRange, LeaseTable, Memory, Scope, State};

pub fn put_file(
    buffer: &mut [u8],
    state: State,
    table: LeaseTable,
    memory: Memory,
    names: &[u8],
) -> usize
    requires { length (octets_as (record { state = state; table = table; memory = memory; names = names.now })) ≤ length buffer.old }
    ensures { Wrote buffer.old 0 (octets_as (record { state = state; table = table; memory = memory; names = names.now })) buffer.new result }
{
    let a = put_sections(buffer, state, table);
    let b = octets::put_run(buffer, a, names, names.len());
    let c = release_file::put(buffer, b, memory);
    lease_file::put(buffer, c, table, true)
}

// The sections before the names.
fn put_sections(buffer: &mut [u8], state: State, table: LeaseTable) -> usize
    requires { length (section_octets state table) ≤ length buffer.old }
    ensures { Wrote buffer.old 0 (section_octets state table) buffer.new result }
{
    let a = put_server(buffer, state);
    let b = put_range_section(buffer, a, state);
    let c = put_scope_section(buffer, b, state);
    lease_file::put(buffer, c, table, false)
}

fn put_server(buffer: &mut [u8], state: State) -> usize
    requires { 9 ≤ length buffer.old }
    ensures { Wrote buffer.old 0 (1 ∷ octets32 state.server ++ octets32 state.clock) buffer.new result }
{
    let a = octets::put_u8(buffer, 0, 1);
    let b = put_number(buffer, a, state.server);
    put_number(buffer, b, state.clock)
}

fn put_range_section(buffer: &mut [u8], at: usize, state: State) -> usize
    requires { at + (1 + length (file_range_octets state)) ≤ length buffer.old }
    ensures { Wrote buffer.old at (length (ranges_of state) ∷ file_range_octets state) buffer.new result }
{
    let a = octets::put_u8(buffer, at, state.tenant_count.min(8));
    put_ranges(buffer, a, state)
}

// The client ranges of the tenants.
fn put_ranges(buffer: &mut [u8], at: usize, state: State) -> usize
    requires { at + length (file_range_octets state) ≤ length buffer.old }
    ensures { Wrote buffer.old at (file_range_octets state) buffer.new result }
{
    let n = usize::from(state.tenant_count).min(8);
    let mut to = at;
    for i in 0..n {
        to = put_range(buffer, to, state.tenants[i]);
    }
    to
}

fn put_range(buffer: &mut [u8], at: usize, r: ClientRange) -> usize
    requires { at + 8 ≤ length buffer.old }
    ensures { Wrote buffer.old at (tenant_format.write r) buffer.new result }
{
    let a = put_number(buffer, at, r.low);
    put_number(buffer, a, r.high)
}

fn put_scope_section(buffer: &mut [u8], at: usize, state: State) -> usize
    requires { at + (1 + length (file_scope_octets state)) ≤ length buffer.old }
    ensures { Wrote buffer.old at (length (scopes_of state) ∷ file_scope_octets state) buffer.new result }
{
    let a = octets::put_u8(buffer, at, state.scope_count.min(4));
    put_scopes(buffer, a, state)
}

// The records of the scopes.
fn put_scopes(buffer: &mut [u8], at: usize, state: State) -> usize
    requires { at + length (file_scope_octets state) ≤ length buffer.old }
    ensures { Wrote buffer.old at (file_scope_octets state) buffer.new result }
{
    let n = usize::from(state.scope_count).min(4);
    let mut to = at;
    for i in 0..n {
        to = put_scope(buffer, to, state.scopes[i], state.tenant_count);
    }
    to
}

// The record of a scope, with a part for each of h tenants.
fn put_scope(buffer: &mut [u8], at: usize, c: Scope, h: u8) -> usize
    requires { at + length ((scope_format h).write (filed_scope h c)) ≤ length buffer.old }
    ensures { Wrote buffer.old at ((scope_format h).write (filed_scope h c)) buffer.new result }
{
    let x = put_number(buffer, at, c.lowest);
    let y = octets::put_u8(buffer, x, c.size);
    let z = octets::put_u8(buffer, y, c.ttl);
    put_parts(buffer, z, c, h)
}

// The reserve and the limit of each of h tenants.
fn put_parts(buffer: &mut [u8], at: usize, c: Scope, h: u8) -> usize
    requires { at + length (part_octets h c) ≤ length buffer.old }
    ensures { Wrote buffer.old at (part_octets h c) buffer.new result }
{
    let n = usize::from(h).min(8);
    let mut to = at;
    for i in 0..n {
        to = put_part(buffer, to, c.reserve[i], c.limit[i]);
    }
    to
}

fn put_part(buffer: &mut [u8], at: usize, reserve: u8, limit: u8) -> usize
    requires { at + 2 ≤ length buffer.old }
    ensures { Wrote buffer.old at (reserve ∷ limit ∷ []) buffer.new result }
{
    let a = octets::put_u8(buffer, at, reserve);
    octets::put_u8(buffer, a, limit)
}

fn put_number(buffer: &mut [u8], at: usize, v: u32) -> usize
    requires { at + 4 ≤ length buffer.old }
    ensures { Wrote buffer.old at (octets32 v) buffer.new result }
{
    octets::put_u32(buffer, at, u64::from(v))
}
