//! A run of the program, to its last thing.
ghost use Rattle.sqlite_wal.specs.Files.{image_at};
ghost use Rattle.run_parts.specs.Outputs.{outputs_of};
ghost use Rattle.store_runs.specs.Ended.{IsCopiedEnd};
ghost use Rattle.bureau_program.specs.Program.{IsRun, found_in};

use bureau_program::Surroundings;
use sqlite::Start;
use std::alloc::Global;
use std::io::{Read, Write};
use store_runs::{Ended, StoreFile, Stores};

/// Does what the words say, and copies the log of a store into its file as the last thing. Returns the exit status, and
/// what is left of the files.
///
/// It takes surroundings and streams of any kind: with the system's own types at hand the proof of these lines takes
/// minutes.
pub(crate) fn run<S: Surroundings, T: Stores, D: Start, I: Read, O: Write, E: Write>(
    surroundings: &mut S,
    stores: &mut T,
    alloc: Global,
    start: D,
    input: &mut I,
    output: &mut O,
    errors: &mut E,
) -> (u8, Ended<StoreFile<D, T::Place>>)
    ensures { (ended : _) × IsCopiedEnd ended result.1
        × IsRun (S.known_words surroundings.old) (S.known_watched surroundings.old)
        (found_in (S.known_file surroundings.old) (T.asked stores.old) (T.asked stores.new)
        (S.known_port surroundings.old) (S.is_over surroundings.new)
        (S.log surroundings.old) (S.log surroundings.new))
        (image_at D.Start)
        (I.remaining input.old) (I.remaining input.new)
        (outputs_of O.contents E.contents output.old output.new errors.old errors.new)
        result.0 ended }
{
    let (status, ended) = bureau_program::run(
        surroundings,
        stores,
        alloc,
        start,
        input,
        output,
        errors,
    );
    (status, ended.close())
}
