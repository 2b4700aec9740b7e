//! What begins connections.
use mio::net::TcpStream;
use std::io;
use std::net::{Net, SocketAddr};

/// What begins connections. It stands apart from the port, since what goes to a worker's thread brings no leave to open sockets
/// there.
pub trait Dialer: Drop {
    /// Begins a connection, and returns at once.
    fn connect(&self, address: SocketAddr) -> io::Result<TcpStream>;
}

/// The dialer of a runtime that may open sockets.
#[derive(Clone, Copy)]
pub struct NetDialer<R: Net + Copy + Drop> {
    pub rt: R,
}

impl<R: Net + Copy + Drop> Dialer for NetDialer<R> {
    fn connect(&self, address: SocketAddr) -> io::Result<TcpStream> {
        TcpStream::connect(&self.rt, address)
    }
}
