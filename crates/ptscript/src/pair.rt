//! The pair run: two runs of a gateway on one journal, the first of which is killed once its payment is booked.
use crate::fault::Fault;
use crate::link::LinkSink;
use crate::played::{LinkState, PlayedTerminal};
use crate::till::{Awaited, Said, Till, payment_frame, read_now, said_by, set_up, status_frame};
use crate::words::plain;
use gw_bytes::LONGEST_CHUNK;
use gw_site::Failed;
use pt_core::Play;
use std::alloc::{AllocError, Global};
use std::io::{self, ErrorKind, Write};
use std::net::{Ipv4Addr, SocketAddr, TcpListener, TcpStream};
use std::process::{Child, Command, Stdio};
use std::time::Duration;
use std::{fs, process, thread};

/// How many polls a wait has.
const POLLS: u32 = 20_000;

/// How long it pauses after each poll, in milliseconds.
const PAUSE: u64 = 1;

/// The ports at which the gateway listens for the till, and the terminal for the gateway.
const TILL_PORT: u16 = 47_031;

const TERMINAL_PORT: u16 = 47_032;

/// What was found.
#[derive(Clone, Copy, Debug, PartialEq, Eq)]
pub(crate) struct Findings {
    /// How many payments the terminal has booked.
    pub(crate) charged: usize,
    /// What the second run has said of the payment.
    pub(crate) said: Said,
}

impl Findings {
    /// Whether this is what a gateway must show: one charge, of which the till hears.
    pub(crate) fn is_right(self) -> bool {
        self.charged == 1 && self.said == Said::Success
    }
}

/// What the till of a run is for.
#[derive(Clone, Copy, Debug, PartialEq, Eq)]
enum Errand {
    /// It pays, until the terminal has booked that.
    Pay,
    /// It asks for the status of the payment, until that isn't in progress.
    AskStatus,
}

impl Errand {
    /// The frame of its request.
    fn frame(self, alloc: Global) -> Result<Vec<u8>, AllocError> {
        match self {
            Errand::Pay => payment_frame(alloc),
            Errand::AskStatus => status_frame(alloc),
        }
    }
}

/// The gateway that is tried, and what its runs share.
#[derive(Clone, Copy)]
struct Trial<'a> {
    gateway: &'a str,
    journal: &'a str,
    /// Where it listens for the till.
    near: SocketAddr,
    /// Where the terminal listens for it.
    far: SocketAddr,
}

/// The other ends of the gateway's connections.
#[derive(Drop)]
struct Scene {
    listener: TcpListener,
    link: Option<TcpStream>,
    played: PlayedTerminal,
    till: Option<Till>,
}

impl Scene {
    /// Hears the terminal's link, and reacts. False where it has ended.
    fn hear_link(&mut self, stream: &TcpStream) -> Result<bool, AllocError> {
        let mut buf = [0; LONGEST_CHUNK];
        match read_now(stream, &mut buf) {
            Ok(count) => {
                let state = self
                    .played
                    .react(&buf[..count], &mut LinkSink::new(stream))?;
                Ok(state == LinkState::Open)
            }
            Err(Failed) => Ok(false),
        }
    }

    /// Takes a link that waits.
    fn take_link(&mut self) {
        if let Ok((stream, _)) = self.listener.accept()
            && set_up(&stream).is_ok()
        {
            self.played.begin_link();
            self.link = Some(stream);
        }
    }

    /// Plays the terminal.
    fn poll_terminal(&mut self) -> Result<(), AllocError> {
        match self.link.take() {
            Some(stream) => {
                if self.hear_link(&stream)? {
                    self.link = Some(stream);
                }
            }
            None => self.take_link(),
        }
        Ok(())
    }

    /// Plays the till, which asks again where its connection has ended or a reply has come.
    fn poll_till(
        &mut self,
        rt: &HostRuntime,
        address: SocketAddr,
        request: &[u8],
    ) -> Result<Said, AllocError> {
        match self.till.take() {
            Some(mut till) => match till.poll(rt.alloc())? {
                Awaited::Reply(found) => Ok(said_by(&found)),
                Awaited::End => Ok(Said::Nothing),
                Awaited::Nothing => {
                    self.till = Some(till);
                    Ok(Said::Nothing)
                }
            },
            None => {
                self.till = Till::ask(rt, address, request)?;
                Ok(Said::Nothing)
            }
        }
    }

    /// Whether an errand is over.
    fn is_over(&self, errand: Errand, said: Said) -> bool {
        match errand {
            Errand::Pay => !self.played.book().is_empty(),
            Errand::AskStatus => said != Said::Nothing,
        }
    }

    /// Plays terminal and till until the errand is over, for so many polls at most, and returns what the till has heard last.
    fn await_end(
        &mut self,
        rt: &HostRuntime,
        address: SocketAddr,
        errand: Errand,
    ) -> Result<Said, AllocError> {
        let request = errand.frame(rt.alloc())?;
        for _ in 0..POLLS {
            self.poll_terminal()?;
            let said = self.poll_till(rt, address, &request)?;
            if self.is_over(errand, said) {
                return Ok(said);
            }
            thread::sleep(rt, Duration::from_millis(PAUSE));
        }
        Ok(Said::Nothing)
    }

    /// Drops the connections of a run that is over.
    fn drop_connections(&mut self) {
        self.link = None;
        self.till = None;
    }

    /// How many payments are booked.
    fn charged(&self) -> usize {
        self.played
            .book()
            .iter()
            .filter(|entry| !entry.reversal && entry.approved)
            .count()
    }
}

/// Starts a run of the gateway.
fn start(rt: &HostRuntime, trial: &Trial<'_>) -> io::Result<Child> {
    Command::new(rt.alloc(), trial.gateway)?
        .arg("serve")?
        .stdin(Stdio::piped())
        .stdout(Stdio::null())
        .spawn(rt)
}

/// Gives a run its configuration, to the end.
fn configure(rt: &HostRuntime, trial: &Trial<'_>, child: &mut Child) -> io::Result<()> {
    let configuration = format!(in rt.alloc();
        "listen = \"{}\"\njournal = \"{}\"\n[[terminal]]\npoi = \"T1\"\naddress = \"{}\"\ncurrency = \"EUR\"\npassword = \"000000\"\n",
        trial.near, trial.journal, trial.far
    )?;
    match child.stdin.take() {
        Some(mut input) => input.write_all(configuration.as_str().as_bytes()),
        None => Err(io::Error::from(ErrorKind::BrokenPipe)),
    }
}

/// Kills a run, and waits for its end.
fn end(child: &mut Child) {
    let _ = child.kill();
    let _ = child.wait();
}

/// One run of the gateway: it is killed once the errand is over.
fn run(
    rt: &HostRuntime,
    trial: &Trial<'_>,
    scene: &mut Scene,
    errand: Errand,
) -> Result<Said, AllocError> {
    let Ok(mut child) = start(rt, trial) else {
        return Ok(Said::Nothing);
    };
    let said = match configure(rt, trial, &mut child) {
        Ok(()) => scene.await_end(rt, trial.near, errand),
        Err(_) => Ok(Said::Nothing),
    };
    end(&mut child);
    scene.drop_connections();
    said
}

/// Both runs.
fn run_both(
    rt: &HostRuntime,
    trial: &Trial<'_>,
    scene: &mut Scene,
) -> Result<Findings, AllocError> {
    let _ = run(rt, trial, scene, Errand::Pay)?;
    let said = run(rt, trial, scene, Errand::AskStatus)?;
    Ok(Findings {
        charged: scene.charged(),
        said,
    })
}

/// A loopback address of this process's own, so that runs side by side don't meet.
fn own_address(process: u32, port: u16) -> SocketAddr {
    let [_, a, b, c] = process.to_be_bytes();
    SocketAddr::from((Ipv4Addr::new(127, a, b, c), port))
}

/// The terminal: it books the first payment, and cuts the connection before it says so.
fn terminal(alloc: Global) -> Result<PlayedTerminal, AllocError> {
    let mut plays = Vec::new(alloc);
    plays.push(plain(Play::CutAfterBook))?;
    PlayedTerminal::new(alloc, plays)
}

/// The terminal's end, which listens.
fn scene_at(rt: &HostRuntime, address: SocketAddr) -> Result<Scene, Fault> {
    let played = terminal(rt.alloc())?;
    match listen_without_waiting(rt, address) {
        Ok(listener) => Ok(Scene {
            listener,
            link: None,
            played,
            till: None,
        }),
        Err(_) => Err(Fault::Listen),
    }
}

/// Listens so that taking a link returns at once.
fn listen_without_waiting(rt: &HostRuntime, address: SocketAddr) -> io::Result<TcpListener> {
    let listener = TcpListener::bind(rt, address)?;
    listener.set_nonblocking(true)?;
    Ok(listener)
}

/// Tries the gateway at a path, and returns what was found.
pub(crate) fn try_gateway(rt: &HostRuntime, gateway: &str) -> Result<Findings, Fault> {
    let process = process::id(rt.process());
    let journal = format!(in rt.alloc(); "/tmp/ptscript-{process}.jrn")?;
    let trial = Trial {
        gateway,
        journal: journal.as_str(),
        near: own_address(process, TILL_PORT),
        far: own_address(process, TERMINAL_PORT),
    };
    let mut scene = scene_at(rt, trial.far)?;
    // One that an earlier process of this number has left.
    let _ = fs::remove_file(rt, trial.journal);
    let found = run_both(rt, &trial, &mut scene);
    let _ = fs::remove_file(rt, trial.journal);
    Ok(found?)
}
