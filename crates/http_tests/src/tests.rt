//! The parts of the tests.
mod cuts;
mod devices;
mod echo;
mod lists;
mod lost;
mod replies;
mod tableless;
