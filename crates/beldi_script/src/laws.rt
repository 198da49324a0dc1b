// Laws of the lines of a script.
ghost use Rattle.beldi_script.specs.ScriptText.{LineIsReadAgain};
ghost use Rattle.beldi_script.specs.LineCut.{LinesAreCut};
ghost use Rattle.beldi_script.specs.Forms.{LinesHaveForms};

/// A line that is written, within the limits of its form and under names that differ, is read as that line.
pub fn line_is_read_again()
    ensures { LineIsReadAgain }
{}

/// Lines that are put after one another, each with its end, are cut into just these lines.
pub fn lines_are_cut()
    ensures { LinesAreCut }
{}

/// A text is read as a line just where it has one of the line's forms.
pub fn lines_have_forms()
    ensures { LinesHaveForms }
{}
