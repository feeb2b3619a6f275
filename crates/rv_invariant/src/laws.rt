//! Laws of documents of certificates, each the contract of a function that does nothing.

ghost use Rattle.std.specs.Prelude.{◌≡◌, ◌++◌, ◌∷◌, ◌↔◌, [], List, None};
ghost use Rattle.rv_flat.specs.declared.flat.Flat.{Flat as FlatModel};
ghost use Rattle.rv_invfile.specs.Rules.{Fields, HasNoFault, IsDocument, fault_after};
ghost use Rattle.rv_invfile.specs.Spells.{BeginsDocument};
ghost use Rattle.rv_invfile.specs.Told.{IsTold};
ghost use Rattle.rv_proofs.specs.Counts.{HasFree};
ghost use Rattle.rv_proofs.specs.declared.certificate.Certificate.{Certificate as CertificateModel};
ghost use Rattle.rv_proofs.specs.declared.report.LeftReport.{LeftReport as ReportModel};
ghost use Rattle.rv_invariant.specs.Certificates.{BeginsCertificate, FitsCertificate, certificate_records, certificate_rule};
ghost use Rattle.rv_invariant.specs.Unknown.{FitsReport, left_records};

/// A certificate that has a document has the counts and ranges of one, of whatever flat system; and a location of it without a turn of
/// a loop has no rows in `first` and `around`.
pub fn documents_fit()
    ensures fits { (f : FlatModel) (rs : List Fields) (c : CertificateModel) → IsDocument (certificate_rule f) rs c → FitsCertificate f c }
    ensures free { (f : FlatModel) (rs : List Fields) (c : CertificateModel) → IsDocument (certificate_rule f) rs c → HasFree c }
{}

/// A document of a certificate is written by the rules of formats: its records are those of the certificate. So a certificate has no
/// other document.
pub fn documents_are_written()
    ensures { (f : FlatModel) (rs : List Fields) (c : CertificateModel) → IsDocument (certificate_rule f) rs c → rs ≡ certificate_records f c }
{}

/// A certificate that has the counts and ranges of a document of a flat system, in which a location without a turn of a loop has no rows
/// in `first` and `around`, has a document: the records that the rules of formats write for it. The names in the text of the flat system
/// are letters, digits and `_`.
pub fn documents_exist()
    ensures { (f : FlatModel) (c : CertificateModel) → IsTold f → FitsCertificate f c → IsDocument (certificate_rule f) (certificate_records f c) c }
{}

/// After records at which no fault is, a record is awaited exactly where those and it begin the document of a certificate; and exactly
/// where the records that the rules of formats write for some certificate begin with those and it. So what is awaited after a record is
/// what is written next: no more, and no less. The names in the text of the flat system are letters, digits and `_`.
pub fn awaited_records()
    ensures documents { (f : FlatModel) → IsTold f → (before : List Fields) (r : Fields) → HasNoFault (certificate_rule f) before
        → (fault_after (certificate_rule f) before r ≡ None) ↔ BeginsDocument (certificate_rule f) (before ++ r ∷ []) }
    ensures written { (f : FlatModel) → IsTold f → (before : List Fields) (r : Fields) → HasNoFault (certificate_rule f) before
        → (fault_after (certificate_rule f) before r ≡ None) ↔ BeginsCertificate f (before ++ r ∷ []) }
{}

/// An unknown report is told by its document: of two that have the counts and ranges of a document, whose records are the same, the
/// reasons, the left locations and the partitions are the same. The names in the text of the flat system are letters, digits and `_`.
pub fn reports_are_told()
    ensures { (f : FlatModel) (a b : ReportModel) → IsTold f → FitsReport f a → FitsReport f b → left_records f a ≡ left_records f b → a ≡ b }
{}
