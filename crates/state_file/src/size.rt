// How many octets the file of a book has.
ghost use Rattle.std.specs.Prelude.{◌≡◌, ◌≤◌, length};
ghost use Rattle.state_file.specs.File.{scope_format};
ghost use Rattle.state_file.specs.Records.{filed_scope};
ghost use Rattle.state_file.specs.Rows.{file_scope_octets, section_octets};
ghost use Rattle.state_file.specs.StateFile.{octets_as};

use state::{LeaseTable, Memory, Scope, State};

pub fn file_size(state: State, table: LeaseTable, memory: Memory, names: &[u8]) -> usize
    ensures { result ≡ length (octets_as (record { state = state; table = table; memory = memory; names = names.now })) }
{
    sections_size(state, table)
        + names.len()
        + release_file::size(memory)
        + lease_file::size(table, true)
}

// Those of the sections before the names.
fn sections_size(state: State, table: LeaseTable) -> usize
    ensures { (result ≡ length (section_octets state table)) × (result ≤ 15140) }
{
    11 + usize::from(state.tenant_count).min(8) * 8
        + scopes_length(state)
        + lease_file::size(table, false)
}

fn scopes_length(state: State) -> usize
    ensures { (result ≡ length (file_scope_octets state)) × (result ≤ 88) }
{
    let n = usize::from(state.scope_count).min(4);
    let mut sum: usize = 0;
    for i in 0..n {
        sum += scope_size(state.scopes[i], state.tenant_count);
    }
    sum
}

fn scope_size(c: Scope, h: u8) -> usize
    ensures { (result ≡ length ((scope_format h).write (filed_scope h c))) × (result ≤ 22) }
{
    6 + usize::from(h).min(8) * 2
}
