//! Ports over memory: they are handed out and taken back, and their calls fail.
ghost use Rattle.std.specs.Prelude.{◌≡◌, ◌+◌, IfSome};

use arc_core::MemoryLink;
use std::alloc::Global;
use std::process::Abort;
use std::test::Fail;
use worker_ports::{Handed, MemoryPorts, Ports, PortsCalls};
use worker_server::{MemoryPort, Next, Port};

type Kept = MemoryPorts<MemoryLink>;

// Two ports without links; the first fails as soon as it is asked for a link. The listed calls fail.
fn ports_of(alloc: Global, binds: &[u64], hands: &[u64]) -> Result<Kept, Fail> {
    let calls = PortsCalls {
        failing_binds: binds.to_vec(alloc)?,
        failing_hands: hands.to_vec(alloc)?,
    };
    let mut ports = Vec::new(alloc);
    let failing: &[u64] = &[0];
    ports.push(MemoryPort::new(alloc, Vec::new(alloc), failing.to_vec(alloc)?))?;
    ports.push(MemoryPort::new(alloc, Vec::new(alloc), Vec::new(alloc)))?;
    Ok(MemoryPorts::new(alloc, ports, calls))
}

// The next port; none where the call fails, or memory is refused.
fn next_port(ports: &mut Kept) -> Option<MemoryPort<MemoryLink>>
    ensures { IfSome result (λ _. ⟦<MemoryPorts<MemoryLink> as Ports>⟧.out ports.new ≡ ⟦<MemoryPorts<MemoryLink> as Ports>⟧.out ports.old + 1) }
{
    match ports.hand() {
        Handed::Port(port) => Some(port),
        Handed::Failed | Handed::NoMemory => None,
    }
}

// Whether the port fails when it is asked for a link, of which it has none.
fn fails(port: &mut MemoryPort<MemoryLink>) -> bool {
    match port.next() {
        Next::Failed => true,
        Next::Link(_) | Next::Closed | Next::NoMemory => false,
    }
}

// The first port is the one that fails, and the third has no links. They are kept in the order in which they come back.
#[test]
fn ports_go_out_and_come_back_in_order(rt: HostRuntime) -> Result<(), Fail> {
    let mut ports = ports_of(rt.alloc(), &[], &[])?;
    let mut first = next_port(&mut ports).ok_or("a first port")?;
    let mut second = next_port(&mut ports).ok_or("a second port")?;
    let mut third = next_port(&mut ports).ok_or("a third port")?;
    assert!(rt; fails(&mut first));
    assert!(rt; !fails(&mut second));
    assert!(rt; !fails(&mut third));
    ports.back(second);
    ports.back(first);
    let back = ports.taken_back();
    assert_eq!(rt; back.len(), 2);
    assert!(rt; !back[0].has_failed() && back[1].has_failed());
    Ok(())
}

#[test]
fn calls_of_ports_fail(rt: HostRuntime) -> Result<(), Fail> {
    let mut ports = ports_of(rt.alloc(), &[0], &[0])?;
    assert!(rt; ports.bind(11211).is_err());
    assert!(rt; ports.bind(11211).is_ok());
    assert!(rt; next_port(&mut ports).is_none());
    // The ports are as before.
    let mut first = next_port(&mut ports).ok_or("a first port")?;
    assert!(rt; fails(&mut first));
    Ok(())
}
