//! Operators at a Unix socket.
//!
//! `ControlSocket` listens at a path of the file system, which it keeps, so that contracts of programs can say where it was
//! opened; that it listens there is trusted, beside the toolchain. It has a place for each of 16 operators. Nothing in it waits.
//! Where the path has the socket of a program that is gone, that is taken away first; where one listens there, or a file of
//! another kind stands there, it isn't. Who may connect is said by the permissions of the path and its folders. In a turn one
//! who has come is let in where a place is free, each operator is visited, and what is said to one is said to no other
//! (`specs/Places.antt`). What is read and written on the system's sockets is looked at by `bench/operators.py`.
#![tactic(auto)]

mod control_socket;

pub use control_socket::ControlSocket;
