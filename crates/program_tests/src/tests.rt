//! The parts of the tests.
mod desk_tests;
mod holds_tests;
mod program_tests;
mod script;
mod script_tests;
mod store_tests;
mod surroundings;
