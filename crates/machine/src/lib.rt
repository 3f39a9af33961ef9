// The sample machine as a definition stands in specs/; here is check 8.
#![tactic(auto)]

ghost use Rattle.std.specs.Prelude.{◌≡◌, ◌&&◌, leb};

// Whether as much is lent of each as is needed.
pub fn room_ok(
    cells: usize,
    lent_cells: usize,
    registers: usize,
    lent_registers: usize,
    scratch: usize,
    lent_scratch: usize,
) -> bool
    ensures { result ≡ (leb cells lent_cells && leb registers lent_registers && leb scratch lent_scratch) }
{
    (cells <= lent_cells) & (registers <= lent_registers) & (scratch <= lent_scratch)
}
