//! The commands, each from its words.

ghost use Rattle.std.specs.Prelude.{◌≡◌, ◌≤◌, false, length};
ghost use Rattle.cdf_model.specs.Forms.{wanted};
ghost use Rattle.cdf_script.specs.Reading.{ReadsRow};
ghost use Rattle.cdf_script.specs.Verbs.{row_of};

use crate::arguments::Arguments;
use crate::fault::ParseError;
use crate::verb::Verb;
use cdf_model::Command;

/// The command of a verb, with the words that it wants.
pub fn read_command(verb: Verb, arguments: &mut Arguments<'_>) -> Result<Command, ParseError>
    requires enough { wanted (row_of verb) ≤ length arguments.old }
    requires exact { (row_of verb).is_open ≡ false → length arguments.old ≡ wanted (row_of verb) }
    ensures { ReadsRow (row_of verb) arguments.old result }
{
    match verb {
        Verb::Info => Ok(Command::Info),
        Verb::List => Ok(Command::List),
        Verb::Dump => Ok(Command::Dump),
        Verb::Setup => read_setup(arguments),
        Verb::Checksum => read_checksum(arguments),
        Verb::Report => read_report(arguments),
        Verb::Attr => read_attr(arguments),
        Verb::RenameAttr => read_rename_attr(arguments),
        Verb::DelAttr => read_del_attr(arguments),
        Verb::PutEntry => read_put_entry(arguments),
        Verb::GetEntry => read_get_entry(arguments),
        Verb::DelEntry => read_del_entry(arguments),
        Verb::RVar => read_rvar(arguments),
        Verb::ZVar => read_zvar(arguments),
        Verb::RenameVar => read_rename_var(arguments),
        Verb::DelVar => read_del_var(arguments),
        Verb::SetPad => read_set_pad(arguments),
        Verb::SetSparse => read_set_sparse(arguments),
        Verb::SetCompress => read_set_compress(arguments),
        Verb::SetBlocking => read_set_blocking(arguments),
        Verb::PutRec => read_put_rec(arguments),
        Verb::GetRec => read_get_rec(arguments),
        Verb::DelRecs => read_del_recs(arguments),
        Verb::PutVal => read_put_val(arguments),
        Verb::GetVal => read_get_val(arguments),
        Verb::Reindex => read_reindex(arguments),
    }
}

fn read_setup(arguments: &mut Arguments<'_>) -> Result<Command, ParseError>
    requires { 3 ≤ length arguments.old }
    ensures { ReadsRow (row_of Verb.Setup) arguments.old result }
{
    let encoding = arguments.number()?;
    let majority = arguments.majority()?;
    let dims = arguments.numbers()?;
    Ok(Command::Setup {
        encoding,
        majority,
        dims,
    })
}

fn read_checksum(arguments: &mut Arguments<'_>) -> Result<Command, ParseError>
    requires { 1 ≤ length arguments.old }
    ensures { ReadsRow (row_of Verb.Checksum) arguments.old result }
{
    let md5 = arguments.choice(b"none", b"md5")?;
    Ok(Command::Checksum { md5 })
}

fn read_report(arguments: &mut Arguments<'_>) -> Result<Command, ParseError>
    requires { 1 ≤ length arguments.old }
    ensures { ReadsRow (row_of Verb.Report) arguments.old result }
{
    let tap = arguments.text()?;
    Ok(Command::Report { tap })
}

fn read_attr(arguments: &mut Arguments<'_>) -> Result<Command, ParseError>
    requires { 2 ≤ length arguments.old }
    ensures { ReadsRow (row_of Verb.Attr) arguments.old result }
{
    let name = arguments.text()?;
    let scope = arguments.scope()?;
    Ok(Command::Attr { name, scope })
}

fn read_rename_attr(arguments: &mut Arguments<'_>) -> Result<Command, ParseError>
    requires { 2 ≤ length arguments.old }
    ensures { ReadsRow (row_of Verb.RenameAttr) arguments.old result }
{
    let from = arguments.text()?;
    let to = arguments.text()?;
    Ok(Command::RenameAttr { from, to })
}

fn read_del_attr(arguments: &mut Arguments<'_>) -> Result<Command, ParseError>
    requires { 1 ≤ length arguments.old }
    ensures { ReadsRow (row_of Verb.DelAttr) arguments.old result }
{
    let name = arguments.text()?;
    Ok(Command::DelAttr { name })
}

fn read_put_entry(arguments: &mut Arguments<'_>) -> Result<Command, ParseError>
    requires { 5 ≤ length arguments.old }
    ensures { ReadsRow (row_of Verb.PutEntry) arguments.old result }
{
    let attr = arguments.text()?;
    let kind = arguments.kind()?;
    let num = arguments.number()?;
    let t = arguments.data_type()?;
    let words = arguments.values()?;
    Ok(Command::PutEntry {
        attr,
        kind,
        num,
        t,
        words,
    })
}

fn read_get_entry(arguments: &mut Arguments<'_>) -> Result<Command, ParseError>
    requires { 3 ≤ length arguments.old }
    ensures { ReadsRow (row_of Verb.GetEntry) arguments.old result }
{
    let attr = arguments.text()?;
    let kind = arguments.kind()?;
    let num = arguments.number()?;
    Ok(Command::GetEntry { attr, kind, num })
}

fn read_del_entry(arguments: &mut Arguments<'_>) -> Result<Command, ParseError>
    requires { 3 ≤ length arguments.old }
    ensures { ReadsRow (row_of Verb.DelEntry) arguments.old result }
{
    let attr = arguments.text()?;
    let kind = arguments.kind()?;
    let num = arguments.number()?;
    Ok(Command::DelEntry { attr, kind, num })
}

fn read_rvar(arguments: &mut Arguments<'_>) -> Result<Command, ParseError>
    requires { 5 ≤ length arguments.old }
    ensures { ReadsRow (row_of Verb.RVar) arguments.old result }
{
    let name = arguments.text()?;
    let t = arguments.data_type()?;
    let elems = arguments.number()?;
    let vary = arguments.choice(b"novary", b"vary")?;
    let varys = arguments.varys()?;
    Ok(Command::RVar {
        name,
        t,
        elems,
        vary,
        varys,
    })
}

fn read_zvar(arguments: &mut Arguments<'_>) -> Result<Command, ParseError>
    requires { 6 ≤ length arguments.old }
    ensures { ReadsRow (row_of Verb.ZVar) arguments.old result }
{
    let name = arguments.text()?;
    let t = arguments.data_type()?;
    let elems = arguments.number()?;
    let vary = arguments.choice(b"novary", b"vary")?;
    let dims = arguments.numbers()?;
    let varys = arguments.varys()?;
    Ok(Command::ZVar {
        name,
        t,
        elems,
        vary,
        dims,
        varys,
    })
}

fn read_rename_var(arguments: &mut Arguments<'_>) -> Result<Command, ParseError>
    requires { 2 ≤ length arguments.old }
    ensures { ReadsRow (row_of Verb.RenameVar) arguments.old result }
{
    let from = arguments.text()?;
    let to = arguments.text()?;
    Ok(Command::RenameVar { from, to })
}

fn read_del_var(arguments: &mut Arguments<'_>) -> Result<Command, ParseError>
    requires { 1 ≤ length arguments.old }
    ensures { ReadsRow (row_of Verb.DelVar) arguments.old result }
{
    let name = arguments.text()?;
    Ok(Command::DelVar { name })
}

fn read_set_pad(arguments: &mut Arguments<'_>) -> Result<Command, ParseError>
    requires { length arguments.old ≡ 2 }
    ensures { ReadsRow (row_of Verb.SetPad) arguments.old result }
{
    let var = arguments.text()?;
    let words = arguments.values()?;
    Ok(Command::SetPad { var, words })
}

fn read_set_sparse(arguments: &mut Arguments<'_>) -> Result<Command, ParseError>
    requires { 2 ≤ length arguments.old }
    ensures { ReadsRow (row_of Verb.SetSparse) arguments.old result }
{
    let var = arguments.text()?;
    let rule = arguments.rule()?;
    Ok(Command::SetSparse { var, rule })
}

fn read_set_compress(arguments: &mut Arguments<'_>) -> Result<Command, ParseError>
    requires { 2 ≤ length arguments.old }
    ensures { ReadsRow (row_of Verb.SetCompress) arguments.old result }
{
    let var = arguments.text()?;
    let rle = arguments.choice(b"none", b"rle")?;
    Ok(Command::SetCompress { var, rle })
}

fn read_set_blocking(arguments: &mut Arguments<'_>) -> Result<Command, ParseError>
    requires { 2 ≤ length arguments.old }
    ensures { ReadsRow (row_of Verb.SetBlocking) arguments.old result }
{
    let var = arguments.text()?;
    let n = arguments.number()?;
    Ok(Command::SetBlocking { var, n })
}

fn read_put_rec(arguments: &mut Arguments<'_>) -> Result<Command, ParseError>
    requires { 3 ≤ length arguments.old }
    ensures { ReadsRow (row_of Verb.PutRec) arguments.old result }
{
    let var = arguments.text()?;
    let rec = arguments.number()?;
    let words = arguments.values()?;
    Ok(Command::PutRec { var, rec, words })
}

fn read_get_rec(arguments: &mut Arguments<'_>) -> Result<Command, ParseError>
    requires { 2 ≤ length arguments.old }
    ensures { ReadsRow (row_of Verb.GetRec) arguments.old result }
{
    let var = arguments.text()?;
    let rec = arguments.number()?;
    Ok(Command::GetRec { var, rec })
}

fn read_del_recs(arguments: &mut Arguments<'_>) -> Result<Command, ParseError>
    requires { 3 ≤ length arguments.old }
    ensures { ReadsRow (row_of Verb.DelRecs) arguments.old result }
{
    let var = arguments.text()?;
    let first = arguments.number()?;
    let last = arguments.number()?;
    Ok(Command::DelRecs { var, first, last })
}

fn read_put_val(arguments: &mut Arguments<'_>) -> Result<Command, ParseError>
    requires { length arguments.old ≡ 4 }
    ensures { ReadsRow (row_of Verb.PutVal) arguments.old result }
{
    let var = arguments.text()?;
    let rec = arguments.number()?;
    let index = arguments.numbers()?;
    let words = arguments.values()?;
    Ok(Command::PutVal {
        var,
        rec,
        index,
        words,
    })
}

fn read_get_val(arguments: &mut Arguments<'_>) -> Result<Command, ParseError>
    requires { 3 ≤ length arguments.old }
    ensures { ReadsRow (row_of Verb.GetVal) arguments.old result }
{
    let var = arguments.text()?;
    let rec = arguments.number()?;
    let index = arguments.numbers()?;
    Ok(Command::GetVal { var, rec, index })
}

fn read_reindex(arguments: &mut Arguments<'_>) -> Result<Command, ParseError>
    requires { 1 ≤ length arguments.old }
    ensures { ReadsRow (row_of Verb.Reindex) arguments.old result }
{
    let var = arguments.text()?;
    Ok(Command::Reindex { var })
}
