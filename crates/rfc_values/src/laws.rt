//! Theorems, as functions with an empty body. To cite one in a proof, call it.
ghost use Rattle.std.specs.Prelude.{◌≡◌, ◌+◌, ◌↔◌, ℕ, List, Some};
ghost use Rattle.httpdate.{specs.Date.{date_text, unix_secs}, specs.declared.date.HttpDate.HttpDate};
ghost use Rattle.rfc_values.{specs.Calendar.unix_epoch, specs.Date.{timestamp, Denotes}};

/// Theorem: `timestamp` returns a time exactly if the text denotes it. So a text denotes at most
/// one.
pub fn timestamps_by_the_calendar()
    ensures { (now : ℕ) (text : List ℕ) (second : ℕ) → (timestamp now text ≡ Some second) ↔ Denotes now text second }
{}

/// Theorem: the IMF-fixdate that `httpdate` writes for a time denotes that time, whatever `now` is.
pub fn http_dates_read_back()
    ensures { (now : ℕ) (date : HttpDate) → timestamp now (date_text date) ≡ Some (unix_epoch + unix_secs date) }
{}
