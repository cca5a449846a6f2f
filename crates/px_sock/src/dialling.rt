//! A connect that goes on while others are served.
use mio::net::TcpStream;
use std::io::ErrorKind;
use std::net::SocketAddr;
use std::os::fd::{AsRawFd, RawFd};
use std::{io, net};

/// How far a connect is.
#[derive(Drop)]
pub enum Dialling {
    Nothing,
    Begun(TcpStream),
    Connected(TcpStream),
    /// It came to nothing, and this is why.
    Failed(io::Error),
}

/// What came of a connect that was begun. One that has come to its end well has another end.
fn settled(stream: TcpStream) -> Dialling {
    match stream.peer_addr() {
        Ok(_) => Dialling::Connected(stream),
        Err(error) if error.kind() == ErrorKind::NotConnected => unsettled(stream),
        Err(error) => Dialling::Failed(error),
    }
}

/// The same of one that isn't connected. The system tells of a failure once, so a connect that has failed is asked no more.
fn unsettled(stream: TcpStream) -> Dialling {
    match stream.take_error() {
        Ok(None) => Dialling::Begun(stream),
        Ok(Some(error)) => Dialling::Failed(error),
        Err(error) => Dialling::Failed(error),
    }
}

impl Dialling {
    /// Begins to connect to this address; to none it fails at once.
    pub fn begin<R: net::Net>(rt: &R, to: Option<SocketAddr>) -> Dialling {
        let Some(at) = to else {
            return Dialling::Failed(io::Error::from(ErrorKind::InvalidInput));
        };
        match TcpStream::connect(rt, at) {
            Ok(stream) => Dialling::Begun(stream),
            Err(error) => Dialling::Failed(error),
        }
    }

    pub fn is_idle(&self) -> bool {
        matches!(self, Dialling::Nothing)
    }

    /// Asks the system how far it is. Whether it has come to its end, well or not.
    pub fn settles(&mut self) -> bool {
        *self = match std::mem::replace(self, Dialling::Nothing) {
            Dialling::Begun(stream) => settled(stream),
            other => other,
        };
        matches!(self, Dialling::Connected(_) | Dialling::Failed(_))
    }

    /// The number of the stream that is being connected.
    pub fn descriptor(&self) -> Option<RawFd> {
        match self {
            Dialling::Begun(stream) => Some(stream.as_raw_fd()),
            _ => None,
        }
    }

    /// Gives it up.
    pub fn fail(&mut self) {
        *self = Dialling::Failed(io::Error::from(ErrorKind::TimedOut));
    }

    /// The stream, where it is connected. Nothing is under way behind it.
    pub fn take(&mut self) -> io::Result<net::TcpStream> {
        match std::mem::replace(self, Dialling::Nothing) {
            Dialling::Connected(stream) => Ok(net::TcpStream::from(stream)),
            Dialling::Begun(_) => Err(io::Error::from(ErrorKind::TimedOut)),
            Dialling::Failed(error) => Err(error),
            Dialling::Nothing => Err(io::Error::from(ErrorKind::NotConnected)),
        }
    }
}
