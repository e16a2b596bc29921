//! Laws: a blocking pair has at most one letter; an instance has at most one best matching; rows
//! without a fault describe at most one instance.

ghost use Rattle.std.specs.Prelude.{◌≡◌, ℕ, List, Option};
ghost use Rattle.spa_rows.specs.Lines.{Rows};
ghost use Rattle.spa_model.specs.Spa.{Spa, Blocks, IsBest};
ghost use Rattle.spa_model.specs.Pairs.{IsInstanceOf};
ghost use Rattle.spa_model.specs.declared.letter.Letter.{Letter};

/// Law: a pair blocks a matching with at most one letter.
pub fn one_letter()
    ensures { (i : Spa) (m : List (Option ℕ)) (s p : ℕ) (x y : Letter) → Blocks i m s p x
        → Blocks i m s p y → x ≡ y }
{}

/// Law: an instance has at most one student-optimal stable matching.
pub fn best_is_one()
    ensures { (i : Spa) (m n : List (Option ℕ)) → IsBest i m → IsBest i n → m ≡ n }
{}

/// Law: rows without a fault describe at most one lawful instance.
pub fn instance_is_one()
    ensures { (rows : Rows) (i j : Spa) → IsInstanceOf rows i → IsInstanceOf rows j → i ≡ j }
{}
