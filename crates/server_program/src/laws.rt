//! What follows from the definitions alone. A proof cites a law by calling it.
ghost use Rattle.std.{specs.Prelude.{◌≡◌, ℕ, ◌<◌, All, true, List}, specs.List.list_all};
ghost use Rattle.server_program.specs.Log.{is_quotable, logged};

/// What a client chose is logged in visible ASCII and spaces, without a quote. So it ends neither the
/// quoted text around it nor the line.
pub fn logged_text_has_no_quote()
    ensures { (text : List ℕ) → All (λ byte. byte < 256) text → list_all is_quotable (logged text) ≡ true }
{}
