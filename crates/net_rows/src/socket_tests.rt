//! Tests of tills' connections and of links to terminals.
use crate::peer::{Part, accepted, gets, last_byte, read_part, sends, three_of};
use gw_base::Pts;
use gw_bytes::{LONGEST_CHUNK, MOST_TERMINALS};
use gw_site::What;
use libc::net::{IPPROTO_TCP, TCP_KEEPIDLE, TCP_USER_TIMEOUT, getsockopt, listen};
use net_play::{Rig, Steps, address, check, setup, terminal_at};
use std::alloc::AllocError;
use std::fs;
use std::net::{Shutdown, SocketAddr, TcpListener, TcpStream};
use std::os::fd::AsRawFd;
use std::test::Fail;
use std::time::{Duration, Instant};

/// A till's message comes, and it gets what is sent to it.
fn a_dialogue(rig: &mut Rig<'_>, till: &mut TcpStream) -> Steps {
    let message = [0x00, 0x00, 0x00, 0x02, 0x7B, 0x7D];
    check!(rig.brings(What::TillOpened(1)), "a till opens");
    check!(sends(till, &message), "it sends bytes");
    check!(
        rig.brings_bytes(What::TillBytes(1, 6), &message),
        "its bytes come"
    );
    check!(rig.sends_till(1, b"abc"), "it is sent bytes");
    check(gets(till, b"abc"), "it gets them")
}

fn a_till(rig: &mut Rig<'_>) -> Steps {
    let mut till = rig.connect()?;
    a_dialogue(rig, &mut till)?;
    drop(till);
    check!(rig.brings(What::TillClosed(1)), "it closes");
    check(!rig.sends_till(1, b"abc"), "it is gone")
}

fn a_terminal(rig: &mut Rig<'_>, listener: &TcpListener) -> Steps {
    check!(!rig.sends_pt(0, b"early"), "it isn't linked");
    check!(rig.links(0), "it is linked");
    let mut terminal = accepted(listener)?;
    check!(sends(&mut terminal, &[0x80, 0x00, 0x00]), "it sends bytes");
    check!(
        rig.brings_bytes(What::PtBytes(0, 3), &[0x80, 0x00, 0x00]),
        "its bytes come"
    );
    check!(rig.sends_pt(0, &[0x06, 0x00, 0x00]), "it is sent bytes");
    check(gets(&mut terminal, &[0x06, 0x00, 0x00]), "it gets them")
}

/// A second link replaces the first, whose peer reads its end.
fn a_second_link(rig: &mut Rig<'_>, listener: &TcpListener) -> Steps {
    check!(rig.links(0), "it is linked");
    let mut first = accepted(listener)?;
    check!(rig.links(0), "it is linked again");
    let second = accepted(listener)?;
    check!(three_of(&mut first).is_none(), "the first has ended");
    drop(second);
    check!(rig.brings(What::PtClosed(0)), "the second ends");
    check(!rig.links(1), "there is no other terminal")
}

fn a_till_and_a_terminal(rig: &mut Rig<'_>, listener: &TcpListener) -> Result<(), Fail> {
    a_till(rig)?;
    a_terminal(rig, listener)?;
    a_second_link(rig, listener)?;
    rig.remove_file()
}

#[test]
fn a_till_and_a_terminal_over_loopback(rt: HostRuntime) -> Result<(), Fail> {
    let far = address(&rt, 47002);
    let listener = TcpListener::bind(&rt, far)?;
    let mut rig = Rig::opened(&rt, "loopback", 47001, &[far])?;
    a_till_and_a_terminal(&mut rig, &listener)
}

fn opens_at(rt: &HostRuntime, rig: &mut Rig<'_>, listen: &str) -> Result<bool, Fail> {
    let setup = setup(rt, listen, rig.journal(), &[address(rt, 47015)])?;
    rig.open_with(&setup)
}

fn one_terminal_at(rt: &HostRuntime, far: &str) -> Result<Pts, Fail> {
    let terminal = terminal_at(rt, 1, far)?;
    let terminals = vec![in rt.alloc(); terminal]?;
    Ok(Pts::new(terminals))
}

fn opens_with_a_terminal_at(rt: &HostRuntime, rig: &mut Rig<'_>, far: &str) -> Result<bool, Fail> {
    let terminals = one_terminal_at(rt, far)?;
    let mut setup = rig.setup(&[])?;
    setup.terminals = terminals;
    rig.open_with(&setup)
}

fn no_address(rt: &HostRuntime, rig: &mut Rig<'_>) -> Result<(), Fail> {
    for listen_at in ["localhost:47014", "127.0.0.1", ""] {
        check!(!opens_at(rt, rig, listen_at)?, "a name to listen at");
    }
    check!(
        !opens_with_a_terminal_at(rt, rig, "localhost:47015")?,
        "a terminal's name"
    );
    Ok(())
}

/// Two terminals at one address, and addresses to listen at that aren't this machine's, or that another one has.
fn other_addresses(rt: &HostRuntime, rig: &mut Rig<'_>) -> Result<(), Fail> {
    let far = address(rt, 47015);
    check!(!rig.open(&[far, far])?, "two terminals at one address");
    check!(!opens_at(rt, rig, "192.0.2.1:47014")?, "it isn't there");
    let _listener = TcpListener::bind(rt, address(rt, 47014))?;
    check!(!rig.open(&[far])?, "another one listens there");
    Ok(())
}

/// Whether its file is there.
fn is_there(rt: &HostRuntime, rig: &Rig<'_>) -> bool {
    fs::metadata(rt, rig.journal()).is_ok()
}

fn addresses_are_refused(rt: &HostRuntime, rig: &mut Rig<'_>) -> Result<(), Fail> {
    no_address(rt, rig)?;
    other_addresses(rt, rig)?;
    check!(!is_there(rt, rig), "no file is made");
    check!(rig.open(&[address(rt, 47015)])?, "others are opened");
    rig.remove_file()
}

/// An address is an IP address and a port: to look a name up could take seconds. An opening that is refused for one makes no file.
#[test]
fn addresses_that_are_refused(rt: HostRuntime) -> Result<(), Fail> {
    let mut rig = Rig::new(&rt, "names", 47014)?;
    addresses_are_refused(&rt, &mut rig)
}

fn a_byte_at_a_time(rig: &mut Rig<'_>, peer: &mut TcpStream) -> Steps {
    check!(peer.set_nodelay(true).is_ok(), "bytes are sent at once");
    for byte in 0..6u8 {
        check!(sends(peer, &[byte]), "a byte is sent");
        check!(
            rig.brings_bytes(What::TillBytes(1, 1), &[byte]),
            "a byte comes"
        );
    }
    Ok(())
}

/// A connection that is closed with bytes unread is reset.
fn a_reset(rig: &mut Rig<'_>) -> Steps {
    let peer = rig.connect()?;
    check!(rig.brings(What::TillOpened(2)), "a till opens");
    check!(rig.sends_till(2, b"never read"), "it is sent bytes");
    drop(peer);
    check(rig.brings(What::TillClosed(2)), "it is reset")
}

/// What was sent before a half close comes, and then the connection's end.
fn a_half_close(rig: &mut Rig<'_>) -> Steps {
    let mut peer = rig.connect()?;
    check!(rig.brings(What::TillOpened(3)), "a till opens");
    check!(sends(&mut peer, b"last"), "it sends bytes");
    check!(peer.shutdown(Shutdown::Write).is_ok(), "it closes a half");
    check!(
        rig.brings_bytes(What::TillBytes(3, 4), b"last"),
        "the last bytes come"
    );
    check(rig.brings(What::TillClosed(3)), "then the end")
}

/// Sends of 4,096 bytes each to a till that doesn't read, until one fails: how many succeeded, and how long the longest took.
fn sends_until_one_fails(
    rt: &HostRuntime,
    rig: &mut Rig<'_>,
    till: u64,
) -> Result<(u64, Duration), Fail> {
    let mut longest = Duration::ZERO;
    for number in 0..10_000u64 {
        let start = Instant::now(rt)?;
        let is_sent = rig.sends_till(till, &[last_byte(number); 4096]);
        longest = longest.max(start.elapsed(rt)?);
        if !is_sent {
            return Ok((number, longest));
        }
    }
    Err(Fail::from("a send fails"))
}

/// How many bytes a peer gets until the connection's end, of which each 4,096 are one more than those before, while the site polls.
fn count_until_the_end(rig: &mut Rig<'_>, peer: &mut TcpStream) -> Result<u64, Fail> {
    let mut buf = [0; LONGEST_CHUNK];
    let mut count: u64 = 0;
    for _ in 0..100_000 {
        match read_part(peer, count) {
            Part::Bytes(more) => count = count.saturating_add(more),
            Part::Nothing => {
                let _ = rig.poll(&mut buf);
            }
            Part::End => return Ok(count),
            Part::Wrong => return Err(Fail::from("the bytes are those that were sent")),
        }
    }
    Err(Fail::from("the connection ends"))
}

/// Sends to till 4 don't wait, and one that doesn't fit fails; then it is cut. How many succeeded.
fn fill_till(rt: &HostRuntime, rig: &mut Rig<'_>) -> Result<u64, Fail> {
    let (count, longest) = sends_until_one_fails(rt, rig, 4)?;
    rig.cut_till(4);
    check!(longest < Duration::from_millis(90), "no send waits");
    check!(!rig.sends_till(4, b"x"), "it is cut");
    Ok(count)
}

/// After so many sends of 4,096 bytes and the cut a peer gets all that was sent.
fn gets_all(rig: &mut Rig<'_>, peer: &mut TcpStream, count: u64) -> Result<(), Fail> {
    check!(peer.set_nonblocking(true).is_ok(), "its reads don't wait");
    let got = count_until_the_end(rig, peer)?;
    check!(got >= count.saturating_mul(4096), "it gets what was sent");
    Ok(())
}

/// Sends to a peer that never reads don't wait, and one that doesn't fit fails. After the cut the peer gets all that was sent before.
fn a_peer_that_never_reads(rt: &HostRuntime, rig: &mut Rig<'_>) -> Result<(), Fail> {
    let mut peer = rig.connect()?;
    check!(rig.brings(What::TillOpened(4)), "a till opens");
    check!(sends(&mut peer, b"never heard"), "it sends bytes");
    let count = fill_till(rt, rig)?;
    gets_all(rig, &mut peer, count)
}

/// A connection that has more bytes than are read at once doesn't keep one that opened after it from being heard.
fn a_talker(rig: &mut Rig<'_>, talker: &mut TcpStream) -> Steps {
    let mut other = rig.connect()?;
    check!(rig.brings(What::TillOpened(5)), "a till opens");
    check!(sends(talker, &[9; 20_000]), "the talker sends");
    check!(sends(&mut other, b"x"), "the other sends");
    check!(rig.brings(What::TillBytes(1, 128)), "the talker is heard");
    check!(rig.brings(What::TillBytes(5, 1)), "then the other");
    check(rig.brings(What::TillBytes(1, 128)), "then the talker again")
}

fn peers_after_the_first(rt: &HostRuntime, rig: &mut Rig<'_>) -> Result<(), Fail> {
    a_reset(rig)?;
    a_half_close(rig)?;
    a_peer_that_never_reads(rt, rig)
}

fn peers_beside_the_first(
    rt: &HostRuntime,
    rig: &mut Rig<'_>,
    first: &mut TcpStream,
) -> Result<(), Fail> {
    a_byte_at_a_time(rig, first)?;
    peers_after_the_first(rt, rig)?;
    a_talker(rig, first)?;
    rig.remove_file()
}

fn peers_one_after_the_other(rt: &HostRuntime, rig: &mut Rig<'_>) -> Result<(), Fail> {
    let mut first = rig.connect()?;
    check!(rig.brings(What::TillOpened(1)), "a till opens");
    peers_beside_the_first(rt, rig, &mut first)
}

#[test]
fn peers_that_misbehave(rt: HostRuntime) -> Result<(), Fail> {
    let mut rig = Rig::opened(&rt, "peers", 47003, &[])?;
    peers_one_after_the_other(&rt, &mut rig)
}

fn a_hundred_peers(rt: &HostRuntime, rig: &Rig<'_>) -> Result<Vec<TcpStream>, Fail> {
    let mut peers = Vec::new(rt.alloc());
    for _ in 0..100 {
        peers.push(rig.connect()?)?;
    }
    Ok(peers)
}

fn sixty_five_tills_open(rig: &mut Rig<'_>) -> Steps {
    for till in 1..=65 {
        check!(rig.brings(What::TillOpened(till)), "65 tills open");
    }
    Ok(())
}

fn a_hundred_tills(rig: &mut Rig<'_>) -> Result<(), Fail> {
    sixty_five_tills_open(rig)?;
    // The others wait, and the poll does too: it doesn't return at once for them.
    let took = rig.four_quiet_polls()?;
    check!(took >= Duration::from_millis(150), "a poll waits");
    rig.cut_till(33);
    check!(rig.brings(What::TillOpened(66)), "one more has room");
    rig.remove_file()
}

fn beside_a_hundred_peers(rt: &HostRuntime, rig: &mut Rig<'_>) -> Result<(), Fail> {
    let _peers = a_hundred_peers(rt, rig)?;
    a_hundred_tills(rig)
}

#[test]
fn a_hundred_connections(rt: HostRuntime) -> Result<(), Fail> {
    let mut rig = Rig::opened(&rt, "hundred", 47004, &[])?;
    beside_a_hundred_peers(&rt, &mut rig)
}

/// Connects until it takes too long, at most eight times.
fn connect_many(rt: &HostRuntime, far: SocketAddr) -> Result<Vec<TcpStream>, AllocError> {
    let mut held = Vec::new(rt.alloc());
    for _ in 0..8 {
        match TcpStream::connect_timeout(rt, &far, Duration::from_millis(50)) {
            Ok(stream) => held.push(stream)?,
            Err(_) => break,
        }
    }
    Ok(held)
}

/// Fills the queue of a listener, so that it accepts no connection and refuses none, as a host that is switched off.
fn fill_queue(
    rt: &HostRuntime,
    listener: &TcpListener,
    far: SocketAddr,
) -> Result<Vec<TcpStream>, Fail> {
    let queue = listen(listener.as_raw_fd(), 0);
    let held = connect_many(rt, far)?;
    check!(queue == 0 && held.len() < 8, "the queue isn't full");
    Ok(held)
}

/// Whether no terminal is linked, where each is tried once.
fn none_links(rig: &mut Rig<'_>) -> bool {
    for pt in 0..MOST_TERMINALS {
        if rig.links(pt as u16) {
            return false;
        }
    }
    true
}

/// How long it takes to try each of the terminals once.
fn links(rt: &HostRuntime, rig: &mut Rig<'_>) -> Result<Duration, Fail> {
    let start = Instant::now(rt)?;
    check!(none_links(rig), "nobody accepts");
    Ok(start.elapsed(rt)?)
}

/// How long the shortest of some rounds takes, each of one poll and of all links.
fn shortest_round(rt: &HostRuntime, rig: &mut Rig<'_>) -> Result<Duration, Fail> {
    let mut buf = [0; LONGEST_CHUNK];
    let mut shortest = Duration::MAX;
    for _ in 0..20 {
        let _ = rig.poll(&mut buf);
        shortest = shortest.min(links(rt, rig)?);
    }
    Ok(shortest)
}

/// The addresses of as many terminals as there may be.
fn far_addresses(rt: &HostRuntime) -> Result<Vec<SocketAddr>, Fail> {
    let mut far = Vec::new(rt.alloc());
    for port in 47_100..47_100 + MOST_TERMINALS as u16 {
        far.push(address(rt, port))?;
    }
    Ok(far)
}

/// A listener whose queue is full.
#[derive(Drop)]
struct Full {
    listener: TcpListener,
    held: Vec<TcpStream>,
}

fn full_listener(rt: &HostRuntime, far: SocketAddr) -> Result<Full, Fail> {
    let listener = TcpListener::bind(rt, far)?;
    let held = fill_queue(rt, &listener, far)?;
    Ok(Full { listener, held })
}

fn full_listeners(rt: &HostRuntime, far: &[SocketAddr]) -> Result<Vec<Full>, Fail> {
    let mut listeners = Vec::new(rt.alloc());
    for address in far {
        listeners.push(full_listener(rt, *address)?)?;
    }
    Ok(listeners)
}

fn links_wait_once(rt: &HostRuntime, rig: &mut Rig<'_>) -> Result<(), Fail> {
    let first = links(rt, rig)?;
    check!(first >= Duration::from_millis(15), "they wait");
    check!(first < Duration::from_millis(300), "and they wait together");
    let shortest = shortest_round(rt, rig)?;
    check!(
        shortest < Duration::from_millis(10),
        "those that go on being made don't wait"
    );
    rig.remove_file()
}

/// Links to these addresses, at which nobody accepts.
fn links_to(rt: &HostRuntime, far: &[SocketAddr]) -> Result<(), Fail> {
    let mut rig = Rig::opened(rt, "links", 47005, far)?;
    links_wait_once(rt, &mut rig)
}

/// All links between two polls wait 20 ms together where they are begun, and not while they go on being made: so the shortest of
/// some later rounds takes less than one wait. A busy machine makes rounds longer, but hardly all of them.
#[test]
fn terminals_that_are_switched_off(rt: HostRuntime) -> Result<(), Fail> {
    let far = far_addresses(&rt)?;
    let _listeners = full_listeners(&rt, &far)?;
    links_to(&rt, &far)
}

/// Accepts a connection, if one waits.
fn accept_next(listener: &TcpListener, peers: &mut Vec<TcpStream>) -> Result<(), Fail> {
    if let Ok(peer) = accepted(listener) {
        peers.push(peer)?;
    }
    Ok(())
}

/// Accepts so many connections while the site only polls.
fn accepted_while_polling(
    rt: &HostRuntime,
    rig: &mut Rig<'_>,
    listener: &TcpListener,
    count: usize,
) -> Result<Vec<TcpStream>, Fail> {
    let mut buf = [0; LONGEST_CHUNK];
    let mut peers = Vec::new(rt.alloc());
    for _ in 0..200 {
        if peers.len() == count {
            break;
        }
        accept_next(listener, &mut peers)?;
        let _ = rig.poll(&mut buf);
    }
    check!(peers.len() == count, "so many connections are made");
    Ok(peers)
}

/// The link is not made in time, then all that wait are accepted, of which so many filled the queue.
fn a_link_is_taken_up(
    rt: &HostRuntime,
    rig: &mut Rig<'_>,
    listener: &TcpListener,
    before: usize,
) -> Result<(), Fail> {
    check!(!rig.links(0), "nobody accepts");
    listener.set_nonblocking(true)?;
    let mut peers = accepted_while_polling(rt, rig, listener, before.saturating_add(1))?;
    check!(rig.links(0), "it is taken up");
    for peer in peers.iter_mut() {
        check!(sends(peer, b"x"), "a byte is sent");
    }
    check!(
        rig.brings(What::PtBytes(0, 1)),
        "it is one of those accepted"
    );
    Ok(())
}

/// The link is not made in time, and then it is accepted and closed, as those are that filled the queue.
fn a_link_is_begun_anew(
    rt: &HostRuntime,
    rig: &mut Rig<'_>,
    listener: &TcpListener,
    before: usize,
) -> Result<(), Fail> {
    rig.cut_pt(0);
    check!(!rig.links(0), "nobody accepts");
    drop(accepted_while_polling(rt, rig, listener, before.saturating_add(1))?);
    check!(rig.links(0), "another one is begun at once");
    let mut terminal = accepted(listener)?;
    check!(sends(&mut terminal, b"x"), "a byte is sent");
    check!(rig.brings(What::PtBytes(0, 1)), "it is the one accepted");
    Ok(())
}

/// A link to a listener whose queue is full.
fn a_link_beside_a_full_queue(
    rt: &HostRuntime,
    rig: &mut Rig<'_>,
    listener: &TcpListener,
    far: SocketAddr,
) -> Result<(), Fail> {
    let held = fill_queue(rt, listener, far)?;
    a_link_is_taken_up(rt, rig, listener, held.len())?;
    let held = fill_queue(rt, listener, far)?;
    a_link_is_begun_anew(rt, rig, listener, held.len())
}

/// The same of a listener that is then closed.
fn a_link_is_made(rt: &HostRuntime, rig: &mut Rig<'_>, far: SocketAddr) -> Result<(), Fail> {
    let listener = TcpListener::bind(rt, far)?;
    a_link_beside_a_full_queue(rt, rig, &listener, far)
}

/// Where nobody listens, a link fails.
fn nobody_listens(rig: &mut Rig<'_>) -> Result<(), Fail> {
    rig.cut_pt(0);
    check!(!rig.links(0), "nobody listens");
    rig.remove_file()
}

fn a_link_is_made_and_lost(
    rt: &HostRuntime,
    rig: &mut Rig<'_>,
    far: SocketAddr,
) -> Result<(), Fail> {
    a_link_is_made(rt, rig, far)?;
    nobody_listens(rig)
}

/// A link that isn't made in time goes on being made, and is the one that is taken up. One that its peer has closed meanwhile isn't.
#[test]
fn a_link_goes_on_being_made(rt: HostRuntime) -> Result<(), Fail> {
    let far = address(&rt, 47021);
    let mut rig = Rig::opened(&rt, "making", 47020, &[far])?;
    a_link_is_made_and_lost(&rt, &mut rig, far)
}

/// A till and a terminal that both send more than is read at once.
fn take_turns(rig: &mut Rig<'_>, till: &mut TcpStream, terminal: &mut TcpStream) -> Steps {
    check!(sends(till, &[9; 20_000]), "the till sends");
    check!(sends(terminal, &[9; 20_000]), "the terminal sends");
    for _ in 0..4 {
        check!(rig.brings(What::PtBytes(0, 128)), "the terminal is heard");
        check!(rig.brings(What::TillBytes(1, 128)), "then the till");
    }
    Ok(())
}

/// Whether a connection's option has this number, as the system has put it.
fn has_number(status: i32, value: &[u8; 16], number: u16) -> bool {
    let [low, high] = number.to_le_bytes();
    status == 0 && value[0] == low && value[1] == high
}

/// Whether the system asks the peer of a descriptor, if it is that of a connection, whether it is still there.
fn is_kept_alive(fd: i32) -> bool {
    let mut value = [0; 16];
    let mut len = 16;
    let status = unsafe { getsockopt(fd, IPPROTO_TCP, TCP_KEEPIDLE, &mut value, &mut len) };
    has_number(status, &value, 30)
}

/// Whether the system gives a connection up to which it can't send for some time.
fn is_given_up(fd: i32) -> bool {
    let mut value = [0; 16];
    let mut len = 16;
    let status = unsafe { getsockopt(fd, IPPROTO_TCP, TCP_USER_TIMEOUT, &mut value, &mut len) };
    has_number(status, &value, 50_000)
}

/// How many connections of this process the system watches.
fn watched() -> usize {
    let mut count: usize = 0;
    for fd in 0..200i32 {
        if is_kept_alive(fd) && is_given_up(fd) {
            count = count.saturating_add(1);
        }
    }
    count
}

fn beside_each_other(rig: &mut Rig<'_>, listener: &TcpListener) -> Result<(), Fail> {
    check!(rig.links(0), "it is linked");
    let mut terminal = accepted(listener)?;
    let mut till = rig.connect()?;
    check!(rig.brings(What::TillOpened(1)), "a till opens");
    check!(watched() == 2, "the system watches both");
    take_turns(rig, &mut till, &mut terminal)?;
    rig.remove_file()
}

/// Tills and terminals take turns, and the system watches the connections of both.
#[test]
fn a_till_beside_a_terminal(rt: HostRuntime) -> Result<(), Fail> {
    let far = address(&rt, 47024);
    let listener = TcpListener::bind(&rt, far)?;
    let mut rig = Rig::opened(&rt, "turns", 47023, &[far])?;
    beside_each_other(&mut rig, &listener)
}
