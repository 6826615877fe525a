//! What is proved of the check of an extension.

ghost use Rattle.sx_check.specs.CheckedExtension.{ChecksKeepPromise};
ghost use Rattle.sx_check.specs.Laws.{ChecksAgree, UnsoundChecksAreFinal};

use sx_outline::one_extension_header;

/// Where the check ends with lines, the extension and all that it uses are accepted, itself last.
/// The lines tell the certificate of each rule that its own file states, and no file has changed.
pub fn checks_keep_promise()
    ensures { ChecksKeepPromise }
{}

/// By the name, the budgets and the files there is one result and one number of tries, but for read
/// faults and out of memory; which two readings a stop shows of a line of a language's or an
/// extension's file is free where the line has more than two.
pub fn checks_agree()
    ensures { ChecksAgree }
{
    one_extension_header();
}

/// A check stops with a type error only where the rule that the stop is about, in the file that it
/// names, is not sound.
pub fn unsound_checks_are_final()
    ensures { UnsoundChecksAreFinal }
{}
