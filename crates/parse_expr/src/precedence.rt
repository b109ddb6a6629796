// The levels of operators.

use parse_operand::Operands;

/// Each level is a method, which parses what its rule of the grammar derives.
#[derive(Clone, Copy)]
pub struct Levels<F, G> {
    pub operands: Operands<F, G>,
}
