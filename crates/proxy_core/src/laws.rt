//! What a proxy never does.
ghost use Rattle.proxy_core.specs.Promises.{DialsOnlyAdmitted, SendsNoCredentials};

/// Nothing is dialled before a request is admitted, nor for one that isn't. What is dialled is the authority of its
/// target.
pub fn dials_only_admitted()
    ensures { DialsOnlyAdmitted }
{}

/// No line of a request that goes up is `Proxy-Authorization`, whatever its case.
pub fn sends_no_credentials()
    ensures { SendsNoCredentials }
{}
