// The data access table, AUX bytes 56 to 187.
ghost use Rattle.std.specs.Prelude.{◌≡◌, length};
ghost use Rattle.frame.specs.Aux.{access_bytes};

use buffer_writing::{clear, put_be32};

// A table with one entry, or with none where entries, size and flags are 0.
#[tactic(auto, unfolding(frame::specs::Aux::access_bytes))]
pub(crate) fn build_access_table(table: &mut [u8], entries: u8, size: u32, flags: u8)
    requires { length table.old ≡ 132 }
    ensures { table.new ≡ access_bytes entries size flags }
{
    clear(table);
    table[0] = 8;
    table[2] = entries;
    put_be32(table, 4, size);
    table[9] = entries;
    table[10] = flags;
}
