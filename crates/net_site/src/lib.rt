//! A site over sockets and a file: the edge of the gateway, where the operating system is trusted.
#![tactic(auto)]

mod closing;
mod connection;
mod disk;
mod file;
mod links;
mod moments;
mod queue;
mod site;
mod tills;

pub use site::NetSite;
