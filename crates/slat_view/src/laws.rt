//! Laws of patterns that one fault fits, with nothing to run.
ghost use Rattle.std.specs.Prelude.{◌≡◌, ◌&&◌, ◌+◌, ◌≤◌, ◌<◌, ◌==◌, ℕ, List, Bool, true, false, cond, not, length, sum_by};
ghost use Rattle.std.specs.List.{range_with_len};
ghost use Rattle.scan_model.specs.declared.fault.Fault.{Fault};
ghost use Rattle.scan_model.specs.declared.logs.LogFacts.{LogFacts};
ghost use Rattle.scan_model.specs.ScanTest.{points_of};
ghost use Rattle.scan_model.specs.Coverage.{bit_of};
ghost use Rattle.scan_model.specs.Classes.{class, is_failing, is_passing};
ghost use Rattle.scan_model.specs.Response.{predicts_fail};
ghost use Rattle.scan_model.specs.MatchCounts.{counts_of};
ghost use Rattle.slat_view.specs.Slat.{fits, is_failing_pattern};
ghost use Rattle.slat_view.specs.Places.{bad, put_at};

use scan_model::Parts;

/// A law, with nothing to run: a fault fits a pattern exactly where the pattern has a Failing bit and the number of places at which the fault and
/// the logs don't agree is 0.
pub fn fits_by_sum(parts: &Parts)
    ensures { (logs : List LogFacts) (f : Fault) (w : ℕ) → fits parts.now logs w f
        ≡ (is_failing_pattern parts.now logs w && (sum_by (λ k. bad (is_failing (class parts.now logs (bit_of w k))) (is_passing (class parts.now logs (bit_of w k))) (predicts_fail parts.now f (bit_of w k))) (range_with_len 0 (length (points_of parts.now))) == 0)) }
{
    let _ = parts;
}

/// A law, with nothing to run: one place more that is told to fail moves that number by one, down at a Failing and up at a Passing bit.
pub fn bad_moves()
    ensures { (F P c : ℕ → Bool) (n k : ℕ) → k < n → c k ≡ false → (F k && P k) ≡ false
        → sum_by (λ q. bad (F q) (P q) (put_at c k q)) (range_with_len 0 n) + cond (F k) 1 0 ≡ sum_by (λ q. bad (F q) (P q) (c q)) (range_with_len 0 n) + cond (P k) 1 0 }
{}

/// A law, with nothing to run: a fault that fits a pattern of the test explains a Failing bit.
pub fn fits_is_candidate(parts: &Parts)
    ensures { (logs : List LogFacts) (f : Fault) (w : ℕ) → w < length parts.now.patterns → fits parts.now logs w f ≡ true → 1 ≤ (counts_of parts.now logs f).tfsf }
{
    let _ = parts;
}
