// Theorems on lines. The functions do nothing: their contracts hold the theorems.
ghost use Rattle.script.specs.Laws.{LinesAndCommandsMatch, LinesAndHeadersMatch, CommandsStayApart, FaultsLieInTheirLine, LinesMakeTheScript};

// A line is read as a command exactly if it is that command's line, byte for byte.
pub fn lines_and_commands_match()
    ensures { LinesAndCommandsMatch }
{}

// The same of a header.
pub fn lines_and_headers_match()
    ensures { LinesAndHeadersMatch }
{}

// Two commands never share a line.
pub fn commands_stay_apart()
    ensures { CommandsStayApart }
{}

// A fault names a byte of its line, or its end, or that the line is too long.
pub fn faults_lie_in_their_line()
    ensures { FaultsLieInTheirLine }
{}

// No line has a newline, and with one between two lines they are the script, but for a newline at its end.
pub fn lines_make_the_script()
    ensures { LinesMakeTheScript }
{}
