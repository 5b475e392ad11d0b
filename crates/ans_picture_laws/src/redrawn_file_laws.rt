//! Laws of redrawn files.

ghost use Rattle.ans_picture_laws.specs.RedrawnFileLaws.{ContentTellsThePicture, OnceIsEnough, OnlyItsBytesPart};
ghost use Rattle.ans_picture_laws.specs.RedrawnFileLaws.{RedrawnFilesPass};

/// A redrawn file is accepted, states the same size, keeps its comments and all notes but those on its end mark and
/// its file size, and from every start it passes with the same picture.
pub fn redrawn_files_pass()
    ensures { RedrawnFilesPass }
{}

/// To redraw a redrawn file changes no byte.
pub fn redrawing_once_is_enough()
    ensures { OnceIsEnough }
{}

/// Two files of the same columns and lines show the same picture exactly where their redrawn contents are the same
/// bytes.
pub fn one_content_of_each_picture()
    ensures { ContentTellsThePicture }
{}

/// Players differ at nothing in a redrawn content but the control bytes that the picture itself shows. So `why` says
/// `players: all` of it if there are none.
pub fn players_part_at_its_bytes_alone()
    ensures { OnlyItsBytesPart }
{}
