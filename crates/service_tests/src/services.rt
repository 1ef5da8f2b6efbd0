//! Services with threads, over sockets of this machine.

use crate::house::{Doors, Told, serves};
use crate::operator::Operator;
use crate::sender::{Sender, head_of, post};
use crate::visits::{acknowledge, hello, notified, register};
use autopush_serve::Ended;
use serve_run::{Halt, ServeEnd};
use std::alloc::Global;
use std::net::{Ipv4Addr, Net, TcpListener, TcpStream};
use std::process::Abort;
use std::test::Fail;
use std::thread;
use std::time::{Clock, Duration};
use ws_socket_tests::Client;

/// How many milliseconds a client that moves is away. A user's sessions are told apart by the millisecond in which they began.
const AWAY: u64 = 10;

// What is written by a service that ended with 0.
fn output_of<R: Abort>(rt: &R, told: &Told, alloc: Global) -> Result<String, Fail> {
    assert_eq!(rt; told.ending.ended, Ended::Served(ServeEnd::Done));
    assert_eq!(rt; told.ending.status, 0);
    assert!(rt; told.message.bytes().is_empty());
    let bytes = Vec::from_slice(alloc, told.output.bytes())?;
    Ok(String::from_utf8(bytes)?)
}

// A client registers, and is told of a message, which it doesn't acknowledge.
fn stays<R: Net<Stream = TcpStream> + Clock + Abort>(
    rt: &R,
    alloc: Global,
    doors: Doors,
) -> Result<Client, Fail> {
    let (client, _) = hello(rt, alloc, doors.connection, "")?;
    let target = register(&client, alloc, doors.endpoint)?;
    let answer = post(rt, alloc, doors.endpoint, &target, "hello")?;
    assert_eq!(rt; answer.as_str(), "HTTP/1.1 201 Created");
    notified(rt, &client, alloc, "aGVsbG8")?;
    Ok(client)
}

// The node of a client is killed, which loses what its session held.
#[test]
fn a_client_whose_node_is_killed(rt: HostRuntime) -> Result<(), Fail> {
    let alloc = rt.alloc();
    let doors = Doors::free(&rt)?;
    let words = doors.words(alloc, 1)?;
    let (operator, lines) = Operator::new(&rt)?;
    let (told, visit) = thread::join(
        &rt,
        || serves(rt, rt, alloc, &words, lines),
        || operator.say_after(stays(&rt, alloc, doors), "report\nkill 1\nstop\n"),
    );
    drop(visit?);
    let output = output_of(&rt, &told, alloc)?;
    assert_eq!(rt;
        output.as_str(),
        "report users 1 stored 0 held 1 flights 0 unsent 0 orphans 0 waiting 0
killed 1 0
report users 1 stored 0 held 0 flights 0 unsent 0 orphans 0 waiting 0
tally begun 1 ok 1 refused 0 stored 0 shown 1 acked 0 saved 0 left 0 lost 1
"
    );
    Ok(())
}

// A client registers at the first node and goes. A message comes while it is away, and it is told at the second node.
fn moves<R: Net<Stream = TcpStream> + Clock + Abort>(
    rt: &R,
    alloc: Global,
    doors: Doors,
) -> Result<(), Fail> {
    let (first, uaid) = hello(rt, alloc, doors.connection, "")?;
    let target = register(&first, alloc, doors.endpoint)?;
    first.send(alloc, 0x88, b"\x03\xe8")?;
    assert_eq!(rt; first.told(alloc)?.as_str(), "88 03e8");
    assert!(rt; first.is_at_end()?);
    let answer = post(rt, alloc, doors.endpoint, &target, "hello")?;
    assert_eq!(rt; answer.as_str(), "HTTP/1.1 201 Created");
    thread::sleep(rt, Duration::from_millis(AWAY));
    let (second, name) = hello(rt, alloc, doors.connection.saturating_add(1), &uaid)?;
    assert_eq!(rt; name.as_str(), uaid.as_str());
    let version = notified(rt, &second, alloc, "aGVsbG8")?;
    acknowledge(&second, alloc, &version)?;
    second.send(alloc, 0x88, b"\x03\xe8")?;
    assert_eq!(rt; second.told(alloc)?.as_str(), "88 03e8");
    assert!(rt; second.is_at_end()?);
    Ok(())
}

#[test]
fn a_client_that_moves(rt: HostRuntime) -> Result<(), Fail> {
    let alloc = rt.alloc();
    let doors = Doors::free(&rt)?;
    let words = doors.words(alloc, 2)?;
    let (operator, lines) = Operator::new(&rt)?;
    let (told, visit) = thread::join(
        &rt,
        || serves(rt, rt, alloc, &words, lines),
        || operator.say_after(moves(&rt, alloc, doors), "stop\n"),
    );
    visit?;
    let output = output_of(&rt, &told, alloc)?;
    let report = "report users 1 stored 0 held 0 flights 0 unsent 0 orphans 0 waiting 0\n";
    assert!(rt; output.starts_with(report));
    assert!(rt; output.contains("\ntally begun 1 ok 1 refused 0 "));
    assert!(rt; output.ends_with(" shown 1 acked 1 saved 0 left 0 lost 0\n"));
    Ok(())
}

// A sender that has sent the head of a request, and two bytes of the five behind it.
fn half_post<R: Net<Stream = TcpStream>>(
    rt: &R,
    alloc: Global,
    port: u16,
    target: &str,
) -> Result<Sender, Fail> {
    let sender = Sender::connect(rt, port)?;
    sender.begin(alloc, target, 5)?;
    sender.write("he")?;
    Ok(sender)
}

// The other three bytes come, and the answer, and the client is told of the message.
fn ends_well<R: Abort>(
    rt: &R,
    alloc: Global,
    sender: &Sender,
    client: &Client,
) -> Result<(), Fail> {
    sender.write("llo")?;
    assert_eq!(rt; sender.answer(alloc)?.as_str(), "HTTP/1.1 201 Created");
    notified(rt, client, alloc, "aGVsbG8")?;
    Ok(())
}

// A whole request is answered, and the client is told of the message.
fn passes<R: Net<Stream = TcpStream> + Abort>(
    rt: &R,
    alloc: Global,
    port: u16,
    target: &str,
    client: &Client,
) -> Result<(), Fail> {
    let answer = post(rt, alloc, port, target, "world")?;
    assert_eq!(rt; answer.as_str(), "HTTP/1.1 201 Created");
    notified(rt, client, alloc, "d29ybGQ")?;
    Ok(())
}

// Three requests stop before the ends of their bodies until another has been answered.
fn overtakes<R: Net<Stream = TcpStream> + Clock + Abort>(
    rt: &R,
    alloc: Global,
    doors: Doors,
) -> Result<Client, Fail> {
    let (client, _) = hello(rt, alloc, doors.connection, "")?;
    let target = register(&client, alloc, doors.endpoint)?;
    let first = half_post(rt, alloc, doors.endpoint, &target)?;
    let second = half_post(rt, alloc, doors.endpoint, &target)?;
    let third = half_post(rt, alloc, doors.endpoint, &target)?;
    passes(rt, alloc, doors.endpoint, &target, &client)?;
    ends_well(rt, alloc, &second, &client)?;
    ends_well(rt, alloc, &third, &client)?;
    ends_well(rt, alloc, &first, &client)?;
    Ok(client)
}

// More slow requests than an endpoint node has loops hold up nobody.
#[test]
fn requests_that_are_slow(rt: HostRuntime) -> Result<(), Fail> {
    let alloc = rt.alloc();
    let doors = Doors::free(&rt)?;
    let words = doors.words(alloc, 1)?;
    let (operator, lines) = Operator::new(&rt)?;
    let (told, visit) = thread::join(
        &rt,
        || serves(rt, rt, alloc, &words, lines),
        || operator.say_after(overtakes(&rt, alloc, doors), "stop\n"),
    );
    drop(visit?);
    let output = output_of(&rt, &told, alloc)?;
    assert!(rt; output.contains("\ntally begun 4 ok 4 refused 0 "));
    Ok(())
}

// A loop that answered one request has begun to read the next one, which stops before its body's end until another has been
// answered.
fn crosses<R: Net<Stream = TcpStream> + Clock + Abort>(
    rt: &R,
    alloc: Global,
    doors: Doors,
) -> Result<Client, Fail> {
    let (client, _) = hello(rt, alloc, doors.connection, "")?;
    let target = register(&client, alloc, doors.endpoint)?;
    let slow = Sender::connect(rt, doors.endpoint)?;
    slow.write(&format!(in alloc;
        "{}world{}he",
        head_of(alloc, &target, 5)?,
        head_of(alloc, &target, 5)?
    )?)?;
    assert_eq!(rt; slow.answer(alloc)?.as_str(), "HTTP/1.1 201 Created");
    notified(rt, &client, alloc, "d29ybGQ")?;
    passes(rt, alloc, doors.endpoint, &target, &client)?;
    ends_well(rt, alloc, &slow, &client)?;
    Ok(client)
}

// The two loops of an endpoint node run at once.
#[test]
fn a_request_that_waits_for_another(rt: HostRuntime) -> Result<(), Fail> {
    let alloc = rt.alloc();
    let doors = Doors::free(&rt)?;
    let words = doors.words(alloc, 1)?;
    let (operator, lines) = Operator::new(&rt)?;
    let (told, visit) = thread::join(
        &rt,
        || serves(rt, rt, alloc, &words, lines),
        || operator.say_after(crosses(&rt, alloc, doors), "stop\n"),
    );
    drop(visit?);
    let output = output_of(&rt, &told, alloc)?;
    assert!(rt; output.contains("\ntally begun 3 ok 3 refused 0 "));
    Ok(())
}

// Someone else listens at the port of the connection node.
#[test]
fn a_port_that_is_taken(rt: HostRuntime) -> Result<(), Fail> {
    let alloc = rt.alloc();
    let doors = Doors::free(&rt)?;
    let _listener = TcpListener::bind(&rt, (Ipv4Addr::LOCALHOST, doors.connection))?;
    let words = doors.words(alloc, 1)?;
    let (operator, lines) = Operator::new(&rt)?;
    operator.say("stop\n")?;
    let told = serves(rt, rt, alloc, &words, lines);
    assert_eq!(rt;
        told.ending.ended,
        Ended::Served(ServeEnd::Halted(Halt::Port))
    );
    assert_eq!(rt; told.ending.status, 3);
    assert!(rt; told.output.bytes().is_empty());
    assert!(rt; told.message.bytes() == b"autopush: a port can't be listened at\n".as_slice());
    Ok(())
}
