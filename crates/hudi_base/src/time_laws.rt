// Laws of the times and their texts, over the definitions of specs/.
ghost use Rattle.std.specs.Prelude.{◌≡◌, ◌<◌, ℕ, None, List, length};
ghost use Rattle.std.specs.declared.cmp.Ordering.TheVariants.{Less};
ghost use Rattle.std.specs.Ordering.{nat_cmp};
ghost use Rattle.std.specs.Cmp.Lexicographic.{slice_cmp};
ghost use Rattle.std.specs.List.{All};
ghost use Rattle.std.specs.Char.{IsAsciiDigit};
ghost use Rattle.std.specs.Str.{IsUtf8};
ghost use Rattle.hudi_base.specs.Calendar.{Civil, IsCivil, civil_of, civil_ms};
ghost use Rattle.hudi_base.specs.InstantTime.{IsTime, time_text, civil_at, goes_wrong};

/// A time and its seventeen digits determine each other, in one order, and so do a time and what a calendar and a
/// clock show. It does nothing: its clauses are the laws.
pub fn times_and_texts_agree()
    ensures long { (t : ℕ) → length (time_text t) ≡ 17 }
    ensures digits { (t : ℕ) → IsTime t → All IsAsciiDigit (time_text t) }
    ensures utf8 { (t : ℕ) → IsTime t → IsUtf8 (time_text t) }
    ensures injective { (a b : ℕ) → IsTime a → IsTime b → time_text a ≡ time_text b → a ≡ b }
    ensures ordered { (a b : ℕ) → IsTime a → IsTime b → a < b → slice_cmp nat_cmp (time_text a) (time_text b) ≡ Less }

    // The texts in which nothing goes wrong are those of the times.
    ensures right { (t : ℕ) → IsTime t → goes_wrong (time_text t) ≡ None }
    ensures times_alone { (t : ℕ) → goes_wrong (time_text t) ≡ None → IsTime t }
    ensures texts_alone { (text : List ℕ) → goes_wrong text ≡ None
        → IsTime (civil_ms (civil_at text)) × (time_text (civil_ms (civil_at text)) ≡ text) }

    ensures shown_time { (c : Civil) → IsCivil c → IsTime (civil_ms c) × (civil_of (civil_ms c) ≡ c) }
    ensures time_shown { (t : ℕ) → IsTime t → IsCivil (civil_of t) × (civil_ms (civil_of t) ≡ t) }
{}
