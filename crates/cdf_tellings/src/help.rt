//! The help and the version.

/// Where to look, as it is told where words are wrong. The usage line is written on standard output then.
pub const SHORT_HELP: &str = "cdfedit --help says more";

/// The help.
pub const HELP: &str =
    "cdfedit edits a single-file CDF of version 3 in place by a script, or checks it.

usage: cdfedit [--journal] [--new] [--no-save] [--space] [--] FILE < SCRIPT
       cdfedit [--journal] --check [--space] [--] FILE

  --journal  the first word: saves through FILE.journal, so that a crash leaves the old file or the new one
  --new      begins with a new file; what stood under the name is replaced
  --no-save  saves nothing
  --space    says last what used and unused records take
  --check    says whether the file is well formed, and reads no script
  --         each word behind it is a file

A script has a command a line; an empty line and a line that begins with # have no answer:

  info, list, dump, report tally|vartype
  setup ENCODING row|column DIMS
  attr NAME global|variable, rename-attr FROM TO, del-attr NAME
  put-entry ATTR g|r|z NUM TYPE VALUE.., get-entry ATTR g|r|z NUM, del-entry ATTR g|r|z NUM
  rvar NAME TYPE ELEMS vary|novary VARYS, zvar NAME TYPE ELEMS vary|novary DIMS VARYS
  rename-var FROM TO, del-var NAME, set-pad VAR VALUE, set-sparse VAR none|pad|previous, set-blocking VAR N
  put-rec VAR REC VALUE.., get-rec VAR REC, del-recs VAR FIRST LAST
  put-val VAR REC INDEX VALUE, get-val VAR REC INDEX
  reindex VAR, checksum none|md5

It ends with 0 where all was done, 1 where a line was refused, 2 to 4 where the words, the name or the file
are wrong, 5 to 7 and 9 where a device failed, 8 where there was no memory, 10 where the script is too long,
14 where FILE.journal is open and no journal of FILE.";

/// The version, and the kit that proved it.
pub const VERSION: &str = "cdfedit 0.1.0, proved with rattle-kit-13f logic dac8208d650f15bf";
