//! What is proved of the files of a store whose history goes on.
ghost use Rattle.pm3_history.specs.Files.{FilesOpen};

/// Where the journal has the records of a lawful history behind those of an opening, or of a beginning of it, the two files
/// open to the closure of the graph after these commits.
pub fn files_law()
    ensures opens { FilesOpen }
{
    pm3_types::reached_names();
}
