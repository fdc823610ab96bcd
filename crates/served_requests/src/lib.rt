//! Which requests of a connection were answered, and who was admitted: laws over every server that decides a request and
//! then follows a course of its own.
#![tactic(auto)]

ghost use Rattle.served_requests.specs.Admissions.{AdmitsRightly};

/// Each request of a session was answered by its verdict, and its user admitted exactly where it was to be.
pub fn admits_rightly<Q, E>()
    ensures { AdmitsRightly Q E }
{}
