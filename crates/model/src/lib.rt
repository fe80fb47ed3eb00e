// The rules of the array as definitions, which the contracts of the calls cite, and the promise that holds of every run by them.
#![tactic(auto)]

ghost use Rattle.model.specs.Promise.{Promise, Promised, FormatRight, FormatDone};

use codes::Code;

// The promise stands: every run on an array just formatted, with every power cut, has right replies and leaves right disks.
pub fn promise_stands()
    ensures { Promise }
{}

// The promise for one code.
pub fn promise_of<C: Code>()
    ensures { Promised C.Code.NUMBER C.Code.ROWS C.Code.check C.Code.solved }
{}

// A format that is done leaves an array just formatted.
pub fn format_stands()
    ensures { FormatRight }
{}

// The same for one code.
pub fn format_of<C: Code>()
    ensures { FormatDone C.Code.NUMBER C.Code.ROWS C.Code.check C.Code.solved }
{}
