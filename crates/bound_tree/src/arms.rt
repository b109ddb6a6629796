// The arms of CASE.
ghost use Rattle.std.specs.Prelude.{◌≡◌};

use crate::expr::BoundExpr;
use eng_value::Sides;
use std::marker::Model;

/// `WHEN condition THEN value`
#[derive(Drop)]
pub struct BoundArm {
    pub(crate) condition: BoundExpr,
    pub(crate) value: BoundExpr,
}

impl Model for BoundArm {
    ghost use Rattle.std.specs.Prelude.{refl};
    ghost use Rattle.std.specs.Coded.{code_by, coded×};
    ghost use Rattle.bound_tree.specs.declared.expr.BoundExpr.{the_code};
    ghost use Rattle.bound_tree.specs.Exprs as e;

    ghost Value = { e.BoundArm };

    ghost coded = { code_by (e.BoundExpr × e.BoundExpr) (coded× the_code the_code) (λ (a : e.BoundArm). (a.condition, a.value)) (λ (p : e.BoundExpr × e.BoundExpr). record { condition = p.0; value = p.1 }) (λ (a : e.BoundArm). refl) };

    ghost view = { λ a. record { condition = a.condition; value = a.value } };
}

impl BoundArm {
    pub fn new(condition: BoundExpr, value: BoundExpr) -> BoundArm
        ensures { result ≡ record { condition = condition; value = value } }
    {
        BoundArm { condition, value }
    }
}

/// `WHEN operand THEN value`, where the operand is compared so.
#[derive(Drop)]
pub struct BoundMatch {
    pub(crate) sides: Sides,
    pub(crate) operand: BoundExpr,
    pub(crate) value: BoundExpr,
}

impl Model for BoundMatch {
    ghost use Rattle.std.specs.Prelude.{refl};
    ghost use Rattle.std.specs.Coded.{code_by, codes, coded×};
    ghost use Rattle.eng_value.specs.declared.operators.Sides.{Sides};
    ghost use Rattle.eng_value.specs.contracts.operators.Sides as sides_type;
    ghost use Rattle.bound_tree.specs.declared.expr.BoundExpr.{the_code};
    ghost use Rattle.bound_tree.specs.Exprs as e;

    ghost Value = { e.BoundMatch };

    ghost coded = { code_by (Sides × (e.BoundExpr × e.BoundExpr)) (coded× {A = Sides} {B = e.BoundExpr × e.BoundExpr} (Prim.hlevel (codes, sides_type.the_row.coded)) (coded× the_code the_code)) (λ (a : e.BoundMatch). (a.sides, (a.operand, a.value))) (λ (p : Sides × (e.BoundExpr × e.BoundExpr)). record { sides = p.0; operand = p.1.0; value = p.1.1 }) (λ (a : e.BoundMatch). refl) };

    ghost view = { λ a. record { sides = a.sides; operand = a.operand; value = a.value } };
}

impl BoundMatch {
    pub fn new(sides: Sides, operand: BoundExpr, value: BoundExpr) -> BoundMatch
        ensures { result ≡ record { sides = sides; operand = operand; value = value } }
    {
        BoundMatch {
            sides,
            operand,
            value,
        }
    }
}
