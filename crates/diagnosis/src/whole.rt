//! A report with its digest.
ghost use Rattle.std.specs.Prelude.{◌≡◌};
ghost use Rattle.sha2.specs.Sha256.{sha256};
ghost use Rattle.scan_model.specs.ReportText.{concatenated};

use diag_report::Report;
use scan_model::Digest;
use sha2::Sha256;
use std::marker::Model;

/// A report with the SHA-256 digest (FIPS 180-4) of its bytes. Contracts see its lines.
#[derive(Drop)]
pub struct WholeReport {
    report: Report,
    digest: Digest,
}

impl Model for WholeReport {
    ghost use Rattle.std.specs.Prelude.{◌≡◌, List, ℕ};
    ghost use Rattle.sha2.specs.Sha256.{sha256};
    ghost use Rattle.scan_model.specs.ReportText.{concatenated};

    ghost Value = { List (List ℕ) };

    ghost view = { λ w. w.report };

    ghost invariant = { λ w. w.digest ≡ sha256 (concatenated w.report) };
}

impl WholeReport {
    /// The report with its digest, which is made here.
    pub fn of(report: Report) -> WholeReport
        ensures { result ≡ report }
    {
        let bytes = <Sha256 as sha2::Digest>::digest(report.bytes());
        let digest = Digest::from_bytes(bytes);
        WholeReport { report, digest }
    }

    /// The report.
    pub fn report(&self) -> &Report
        ensures { result.now ≡ self.now }
    {
        &self.report
    }

    /// The digest of its bytes.
    pub fn digest(&self) -> &Digest
        ensures { result.now ≡ sha256 (concatenated self.now) }
    {
        &self.digest
    }
}
