//! A law of the words that the contracts use.
ghost use Rattle.std.specs.Prelude.{◌≡◌, ℕ, List};
ghost use Rattle.octet_log.specs.Logs.{IsLast};

/// At most one number is that of the last string that is the same: the contracts of `last` and `before` leave no choice.
pub fn one_is_last()
    ensures { (strings : List (List ℕ)) (octets : List ℕ) (m n : ℕ)
        → IsLast strings octets m → IsLast strings octets n → m ≡ n }
{}
