//! What is left to do when all modules were made.

ghost use Rattle.std.specs.Prelude.{◌≡◌, ◌++◌, [], IfOk, OnOk, map};
ghost use Rattle.std.specs.List.{flat_map};
ghost use Rattle.sx_steps.specs.Work.{file_of, plan_of};
ghost use Rattle.sx_build.specs.BuildModules as spec;
ghost use Rattle.sx_build.specs.Buildings.{made_view, mades_view};
ghost use Rattle.sx_build.specs.MadeModules.{made_plan, made_files};

use crate::building::Building;
use crate::made::Made;
use std::alloc::Global;
use sx_auditing::put_texts;
use sx_steps::{Output, Work, built_work};
use sx_term::NoMemory;

/// The three files and the line of a module that was made.
fn made_work(alloc: Global, made: Made) -> Result<Work, NoMemory>
    ensures { IfOk result (λ work. plan_of work ≡ made_plan (made_view made)) }
{
    let Made {
        name,
        base,
        list,
        interface,
        nodes,
    } = made;
    let work = built_work(alloc, &name, base, list, interface, nodes);
    drop(name);
    work
}

/// Adds the files one after another.
fn add_files(more: Vec<Output>, files: &mut Vec<Output>) -> Result<(), NoMemory>
    ensures { OnOk result (files.new.items ≡ files.old.items ++ more.items) }
{
    for file in more {
        files.push(file)?;
    }
    Ok(())
}

/// Adds the three files and the line of a module that was made.
fn add_work(alloc: Global, made: Made, whole: &mut Work) -> Result<(), NoMemory>
    ensures files { OnOk result (map file_of whole.new.files.items ≡
        map file_of whole.old.files.items ++ (made_plan (made_view made)).files) }
    ensures lines { OnOk result (whole.new.lines.items ≡
        whole.old.lines.items ++ (made_plan (made_view made)).lines) }
{
    let Work { files, lines } = made_work(alloc, made)?;
    add_files(files, &mut whole.files)?;
    whole.lines.extend_from_slice(&lines)?;
    drop(lines);
    Ok(())
}

/// No file and no line.
fn no_work(alloc: Global) -> Work
    ensures { plan_of result ≡ record { files = []; lines = [] } }
{
    Work {
        files: Vec::new(alloc),
        lines: Vec::new(alloc),
    }
}

/// All files and lines of the modules that were made.
fn made_works(alloc: Global, mades: Vec<Made>) -> Result<Work, NoMemory>
    ensures files { IfOk result (λ work. map file_of work.files.items ≡
        made_files (mades_view mades.items)) }
    ensures lines { IfOk result (λ work. work.lines.items ≡
        flat_map (λ m. (made_plan m).lines) (mades_view mades.items)) }
{
    let mut whole = no_work(alloc);
    for made in mades {
        add_work(alloc, made, &mut whole)?;
    }
    Ok(whole)
}

/// All files in order, then the lines, then the texts of the auditors.
pub(crate) fn whole_work(alloc: Global, building: Building) -> Result<Work, NoMemory>
    ensures { IfOk result (λ work. plan_of work ≡ spec.whole_plan (record {
      made = mades_view building.made.items;
      auditors = map (λ b. meaning b) building.auditors.items;
    })) }
{
    let Building {
        made,
        auditors,
        remembered,
        extensions,
    } = building;
    drop(remembered);
    drop(extensions);
    let mut work = made_works(alloc, made)?;
    put_texts(alloc, &auditors, &mut work.lines)?;
    drop(auditors);
    Ok(work)
}
