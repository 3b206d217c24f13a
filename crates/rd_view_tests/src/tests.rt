//! The tests of the lock; of the desk, over a book of 4 actors and rings of 4 cells; of the text of a
//! view, and views of scripts by threads.

mod busy;
mod calls;
mod commands;
mod ends;
mod gate;
mod live;
mod lock;
mod reports;
mod rows;
mod threads;
mod viewing;
