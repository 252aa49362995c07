// Laws of the definitions.
ghost use Rattle.std.specs.Prelude.{◌≡◌, ℕ, List, None};
ghost use Rattle.std.specs.Str.Lossy.{utf8_error_len};
ghost use Rattle.tds_text.specs.Utf8.{Begins, rest};

/// Some text begins with bytes exactly if std finds no fault in what follows their last whole character.
pub fn begins_by_test()
    ensures passes { (bytes : List ℕ) → Begins bytes → utf8_error_len (rest bytes) ≡ None }
    ensures only { (bytes : List ℕ) → utf8_error_len (rest bytes) ≡ None → Begins bytes }
{}
