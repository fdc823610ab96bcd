//! One worker.
ghost use Rattle.std.specs.Prelude.{◌≡◌, ℕ};
ghost use Rattle.auth_io.specs.Causes.{Rose};
ghost use Rattle.connection_loop.specs.declared.responder.Lack.TheVariants.{Worn};
ghost use Rattle.worker_loop.specs.Connections.{worker_state};
ghost use Rattle.worker_loop.specs.Service.{service_of};
ghost use Rattle.worker_loop.specs.Workers.{Serves, ServesOne};

use crate::finish::{After, Finish};
use crate::server::Server;
use auth_io::{Accept, Failed};
use std::alloc::Global;

/// Takes the next connection, serves it, and gives it back.
fn serve_link<A: Accept, S: Server>(
    alloc: Global,
    accept: &mut A,
    server: &mut S,
    site: &S::Site,
) -> Result<After, Failed>
    ensures served { let at = worker_state A.coming A.handed A.faults in
        ServesOne (service_of S.machine (S.state site.now) S.shown S.passed S.lacked S.ends)
        (at accept.old server.old) (at accept.new server.new) result }
{
    let mut link = accept.accept()?;
    let result = server.serve(alloc, &mut link, site);
    accept.done(link);
    Ok(After::of(&result))
}

/// Serves this many connections, one after the other. A worker goes on after a connection that wasn't served to its
/// end, but it stops where its table of nonces takes no more calls, and where no connection is handed out.
pub fn serve_links<A: Accept, S: Server>(
    alloc: Global,
    accept: &mut A,
    server: &mut S,
    site: &S::Site,
    count: u32,
) -> Finish
    ensures serves { let at = worker_state A.coming A.handed A.faults in
        Serves (service_of S.machine (S.state site.now) S.shown S.passed S.lacked S.ends)
        (at accept.old server.old) (at accept.new server.new) count result }

    // Neither comes without its cause.
    ensures accept_fault { result ≡ Finish.AcceptFault → Rose (A.faults accept.old) (A.faults accept.new) }
    ensures worn { result ≡ Finish.Worn → (calls : ℕ) × (ask : S.Ask) × S.lacked server.old server.new (Worn calls) ask }
{
    let mut wanted = false;
    for served in 0..count {
        let Ok(next) = serve_link(alloc, accept, server, site) else {
            return Finish::AcceptFault;
        };
        if next == After::Stop {
            return Finish::Worn;
        }
        wanted = next.adds_to(wanted);
    }
    if wanted {
        Finish::OutOfMemory
    } else {
        Finish::Well
    }
}
