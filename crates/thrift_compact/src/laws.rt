// What holds of the definitions. The functions do nothing: their clauses are laws.
ghost use Rattle.std.specs.Prelude.{◌≡◌, ◌++◌, ℕ, List, Ok};
ghost use Rattle.thrift_compact.specs.Values.{value_at};
ghost use Rattle.thrift_compact.specs.Grammar.{IsValue};

/// What is passed over is a value of the type, and each value of the type is passed over, whatever follows it.
pub fn values_are_read()
    ensures found { (levels kind : ℕ) (bytes rest : List ℕ) → value_at levels kind bytes ≡ Ok (tt, rest) →
        (value : List ℕ) × (bytes ≡ value ++ rest) × IsValue levels kind value }
    ensures again { (levels kind : ℕ) (value rest : List ℕ) → IsValue levels kind value →
        value_at levels kind (value ++ rest) ≡ Ok (tt, rest) }
{}
