//! The laws of the grammar and of printing. A law is the contract of a function that does nothing.
ghost use Rattle.cl_lines.specs.Laws.{OneSpelling, OneOrderSpelling, PrintsOneLine};

/// Each askable command has exactly one line in each session, and each line asks at most one
/// command.
pub fn each_command_has_one_line()
    ensures { OneSpelling }
{}

/// Each order has exactly one line, and each line gives at most one order.
pub fn each_order_has_one_line()
    ensures { OneOrderSpelling }
{}

/// Each printed line ends with its only newline.
pub fn each_answer_is_one_line()
    ensures { PrintsOneLine }
{}
