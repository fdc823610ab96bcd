//! Who is admitted.
ghost use Rattle.admission.specs.Admission.{AdmitsExactly, AdmitsNoOther, ReadsOneWay};
ghost use Rattle.admission.specs.Exchanges.{AdmitsAgain, AdmitsByTry};

/// A well-formed request of Digest is admitted, as its user, exactly where its response is the value of RFC 7616, and
/// its nonce is live and its count unused behind the calls before its use, or before the look-up where it isn't used.
pub fn admits_exactly()
    ensures { AdmitsExactly }
{}

/// A request of SCRAM-SHA-256 that ends an exchange takes its one try, and admits a user exactly where the try gave the
/// exchange, and the proof, the flag and the nonce are right in it.
pub fn admits_by_try()
    ensures { AdmitsByTry }
{}

/// A request that uses a finished exchange again has it looked up, and admits a user exactly where it was found, the
/// proof and the flag are right in it, its `sr` is live and its count unused.
pub fn admits_again()
    ensures { AdmitsAgain }
{}

/// No other request is admitted. None is by Digest without a use of its count that the table answered Fresh;
/// after that use there is nothing but a draw and an issue, for the nonce to use next. None is by SCRAM-SHA-256 but
/// behind a try and a keeping of its exchange, or a recall and a use that the table answered Fresh.
pub fn admits_no_other()
    ensures { AdmitsNoOther }
{}

/// What the lines of a request say of its credentials is settled by the lines.
pub fn reads_one_way()
    ensures { ReadsOneWay }
{}
