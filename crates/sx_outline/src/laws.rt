//! What holds of language and extension files.

ghost use Rattle.sx_outline.specs.Laws.{ExtensionLinesAreWhole, ExtensionLinesHaveHeaders};
ghost use Rattle.sx_outline.specs.Laws.{ExtensionOutlinesHaveLines};
ghost use Rattle.sx_outline.specs.Laws.{GoodLinesAreOutlines, LinesHaveExtensionOutlines};
ghost use Rattle.sx_outline.specs.Laws.{LinesHaveOutlines};
ghost use Rattle.sx_outline.specs.Laws.{OneExtensionOutline, OneHeaderAnswer};
ghost use Rattle.sx_outline.specs.Laws.{OneOutlineAnswer, OutlineLinesAreGood, OutlinesHaveHeaders};
ghost use Rattle.sx_outline.specs.Laws.{OutlinesHaveLines, RefusedExtensionFiles, RefusedHeaders};
ghost use Rattle.sx_outline.specs.Laws.{RefusedLanguageFiles, WholeLinesAreOutlines};

/// The lines that a file with an outline keeps are the first line, those of the declarations, and
/// those of the rules.
pub fn outlines_have_lines()
    ensures { OutlinesHaveLines }
{}

/// A text whose lines are those of an outline has it.
pub fn lines_have_outlines()
    ensures { LinesHaveOutlines }
{}

/// Two answers for the bytes of a language file agree, out of memory aside.
pub fn one_outline_answer()
    ensures { OneOutlineAnswer }
{}

/// Two headers of the bytes of an extension file agree, out of memory aside.
pub fn one_extension_header()
    ensures { OneHeaderAnswer }
{}

/// Two outlines of the bytes of an extension file agree, out of memory aside.
pub fn one_extension_outline()
    ensures { OneExtensionOutline }
{}

/// The lines that an extension file with an outline keeps are its first lines, those of the
/// declarations, of the plain pairs, and of the rules.
pub fn extension_outlines_have_lines()
    ensures { ExtensionOutlinesHaveLines }
{}

/// A text whose lines are those of an outline of an extension file has it.
pub fn lines_have_extension_outlines()
    ensures { LinesHaveExtensionOutlines }
{}

/// An extension file with an outline has the header that this states.
pub fn outlines_have_headers()
    ensures { OutlinesHaveHeaders }
{}

/// The lines of an outline are as they should be where what they declare is known.
pub fn outline_lines_are_good()
    ensures { OutlineLinesAreGood }
{}

/// Lines that are as they should be and declare what is known, with a main line, are those of an
/// outline.
pub fn good_lines_are_outlines()
    ensures { GoodLinesAreOutlines }
{}

/// The lines of an outline of an extension file have its header.
pub fn extension_lines_have_headers()
    ensures { ExtensionLinesHaveHeaders }
{}

/// The lines after the header of an outline of an extension file are as they should be where what
/// they declare themselves is known.
pub fn extension_lines_are_whole()
    ensures { ExtensionLinesAreWhole }
{}

/// After the lines of a header such lines are those of an outline of an extension file.
pub fn whole_lines_are_outlines()
    ensures { WholeLinesAreOutlines }
{}

/// Where a language file is refused at a line, the lines before it are the first of good ones in
/// some file, by what all its lines declare, and with it they are the first of none. A rule that is
/// not ended, or a line that is missing, is told of lines that are the first of good ones.
pub fn refused_language_files()
    ensures { RefusedLanguageFiles }
{}

/// Where an extension file has no header, the lines before the line that is told are the first of
/// those of some file that has one, and with it they are the first of none.
pub fn refused_headers()
    ensures { RefusedHeaders }
{}

/// Where an extension file is refused at a line after its header, the lines before it are the first
/// of good ones in some file, by what all its lines declare, and with it they are the first of
/// none.
pub fn refused_extension_files()
    ensures { RefusedExtensionFiles }
{}
