//! `gkd serve`: sessions over TCP under the configuration in a file.

use compiler::Tables;
use seat_sessions::{ServeFault, Served, serve_tables};
use std::alloc::AllocGlobal;
use std::io;
use std::net::{Net, TcpListener, TcpStream};
use std::process::ExitCode;
use std::rt::Runtime;
use std::sync::{Arc, Wait};
use std::thread::Threads;
use tasks::{UNWRITTEN, fail, refuse_tables, shared_tables};

/// Serves so many sessions from a port of this machine under the configuration in a file, and
/// prints how many there were and how many events were recorded; or says the first fault: of the
/// configuration, of the seats, of the network, and then of the run.
pub fn serve_file<
    R: Runtime
        + AllocGlobal
        + Net<Listener = TcpListener, Stream = TcpStream>
        + Sync
        + Threads
        + Wait,
>(rt: &R, file: &str, port: u16, seats: u32) -> io::Result<ExitCode> {
    match shared_tables(rt, file) {
        Ok(tables) => serve_under(rt, tables, port, seats),
        Err(why) => refuse_tables(rt, file, why),
    }
}

/// Serves under these tables.
fn serve_under<
    R: Runtime
        + AllocGlobal
        + Net<Listener = TcpListener, Stream = TcpStream>
        + Sync
        + Threads
        + Wait,
>(rt: &R, tables: Arc<Tables>, port: u16, seats: u32) -> io::Result<ExitCode> {
    match serve_tables(rt, rt.alloc(), tables, port, seats) {
        Ok(served) => print_served(rt, &served),
        Err(fault) => refuse_server(rt, fault),
    }
}

/// Prints what came of a server.
fn print_served<R: Runtime>(rt: &R, served: &Served) -> io::Result<ExitCode> {
    if println!(rt; "sessions {} records {}", served.sessions, served.records).is_err() {
        return fail(rt, UNWRITTEN);
    }
    Ok(ExitCode::SUCCESS)
}

/// Says why a server served nobody, or gives no record.
fn refuse_server<R: Eprint>(rt: &R, fault: ServeFault) -> io::Result<ExitCode> {
    eprintln!(rt; "gkd: {fault}")?;
    Ok(ExitCode::from(1))
}
