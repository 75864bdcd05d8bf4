//! The parts of the tests.
mod damage_tests;
mod desk;
mod device_tests;
mod files;
mod migrate_tests;
mod script;
mod stores;
mod trial;
