//! What the definition of lines means.
ghost use Rattle.std.specs.Prelude.{◌≡◌, ◌≤◌, Bool, List, ℕ, ◌++◌, length, map};
ghost use Rattle.script_lines.specs.Lines.{Line, content_of, lines, NoFeed, NoFeeds, script, rest_line};

/// The lines of a script that is not too long are those that its line feeds end, and the rest at the end of input.
pub fn lines_of_a_script()
    ensures { (whole : List (List ℕ)) (rest : List ℕ) (ended : Bool) → NoFeeds whole → NoFeed rest
        → length (script whole rest) ≤ 67108864
        → map (λ (l : Line). l.content) (lines (script whole rest) ended)
        ≡ map content_of whole ++ rest_line rest ended }
{}
