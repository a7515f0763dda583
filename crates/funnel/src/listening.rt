//! Which ports a serve listens on, and its gates, which are made before the program is run.
ghost use Rattle.std.specs.Prelude.{◌≡◌, ◌+◌, ◌<◌, map, IfOk, IfSome};
ghost use Rattle.std.specs.List.{range_with_len};
ghost use Rattle.std.specs.Option.{is_some};
ghost use Rattle.funnel_io.specs.Std.{new_gate};
ghost use Rattle.command_line.specs.Commands.{HasNumbersInRange, IsServeInRange, idle_of, ports_of, ports_of_serve, shares_port};

use crate::port_list::Ports;
use command_line::{Command, ServeCommand};
use funnel_io::{SharedPort, TcpGate};
use std::alloc::{AllocError, Global};
use std::net::{Net, TcpStream};
use std::time::Clock;

/// The ports that a command asks for, one for each worker of a serve: the stated one for all where they share it, or from that
/// one up, also where there is no such port. All other commands, and none, ask for no port.
pub fn ports(alloc: Global, command: Option<Command>) -> Result<Ports, AllocError>
    requires { IfSome command HasNumbersInRange }
    ensures { IfOk result (λ ports. ports ≡ ports_of command) }
{
    let ports = match command {
        Some(Command::Serve(serve)) => ports_of_serve(alloc, serve)?,
        _ => Vec::new(alloc),
    };
    Ok(Ports::new(ports))
}

/// For how many seconds a command lets the reads and writes of a connection wait: 0 where it asks for no limit, or is no serve.
pub fn idle(command: Option<Command>) -> u32
    ensures { result ≡ idle_of command }
{
    match command {
        Some(Command::Serve(serve)) => serve.idle,
        _ => 0,
    }
}

/// Whether a command lets all workers take connections at one port.
pub fn shares_port(command: Option<Command>) -> bool
    ensures { result ≡ shares_port command }
{
    match command {
        Some(Command::Serve(serve)) => serve.one_port,
        _ => false,
    }
}

// The port of each worker.
fn ports_of_serve(alloc: Global, serve: ServeCommand) -> Result<Vec<u32>, AllocError>
    requires { IsServeInRange serve }
    ensures { IfOk result (λ ports. ports.items ≡ ports_of_serve serve) }
{
    if serve.one_port {
        vec![in alloc; serve.port; serve.workers as usize]
    } else {
        numbers_from(alloc, serve.port, serve.workers)
    }
}

// So many numbers, from this one on.
fn numbers_from(alloc: Global, first: u32, count: u32) -> Result<Vec<u32>, AllocError>
    requires { first + count < 4294967296 }
    ensures { IfOk result (λ numbers. numbers.items ≡ range_with_len first count) }
{
    (first..first + count).collect(alloc)
}

/// A gate on each of the ports, which doesn't listen yet, or on the shared port where one is given, which then is each of them. Each
/// lets the reads and writes of its connections wait for so many seconds, or as long as it takes where these are 0.
pub fn gates_on<'a, R: Net<Stream = TcpStream> + Clock>(
    rt: &'a R,
    alloc: Global,
    ports: &[u32],
    idle: u32,
    shared: Option<&'a SharedPort<R::Listener>>,
) -> Result<Vec<TcpGate<'a, R>>, AllocError>
    ensures { IfOk result (λ gates. gates.items ≡ map (new_gate (is_some shared.entry) idle) ports.now) }
{
    let mut gates = Vec::with_capacity(alloc, ports.len())?;
    for port in ports {
        gates.push(TcpGate::on(rt, *port, idle, shared))?;
    }
    Ok(gates)
}
