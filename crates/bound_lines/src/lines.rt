// The lines of the table.
use crate::actions::print_actions;
use crate::binding::{Found, bound};
use crate::facts::tell;
use crate::ignored::ignore;
use crate::scene::{Scene, Shown};
use bound_actions::actions;
use bound_ignored::ignoring;
use bound_print::{Page, print_statement};
use bound_tree::BoundStatement;
use std::alloc::{AllocError, Global};

/// The lines with the outcomes of those that are statements. Only memory can fail.
pub fn outcomes(alloc: Global, text: &str) -> Result<Vec<u8>, AllocError> {
    let mut scene = Scene::new(alloc);
    let mut page = Page::new(alloc);
    for line in text.lines() {
        page.line(line);
        page.indent();
        take_line(alloc, &mut scene, &mut page, line)?;
        page.outdent();
    }
    page.into_bytes()
}

/// Takes a line, and prints its outcome.
fn take_line(
    alloc: Global,
    scene: &mut Scene,
    page: &mut Page,
    line: &str,
) -> Result<(), AllocError> {
    if line.is_empty() || line.starts_with("--") {
        return Ok(());
    }
    if line.starts_with(".") {
        return take_dot_line(alloc, scene, page, line);
    }
    take_statement(alloc, scene, page, line)
}

fn take_dot_line(
    alloc: Global,
    scene: &mut Scene,
    page: &mut Page,
    line: &str,
) -> Result<(), AllocError> {
    match line {
        ".new" => *scene = Scene::new(alloc),
        ".actions" => scene.shown = Shown::Actions,
        ".bound" => scene.shown = Shown::Bound,
        _ => return take_told(alloc, scene, page, line),
    }
    Ok(())
}

/// Takes a line that tells something.
fn take_told(
    alloc: Global,
    scene: &mut Scene,
    page: &mut Page,
    line: &str,
) -> Result<(), AllocError> {
    if !tell(alloc, &mut scene.facts, line)? && !ignore(alloc, &mut scene.ignored, line)? {
        page.line("unknown dot line");
    }
    Ok(())
}

fn take_statement(
    alloc: Global,
    scene: &mut Scene,
    page: &mut Page,
    line: &str,
) -> Result<(), AllocError> {
    match bound(alloc, scene, line) {
        Ok(found) => take_found(alloc, scene, page, found),
        Err(cause) => {
            page.begin("");
            page.write_cause(&cause);
            page.end();
            Ok(())
        }
    }
}

/// Shows a statement, and keeps what it creates.
fn take_found(
    alloc: Global,
    scene: &mut Scene,
    page: &mut Page,
    found: Found<'_>,
) -> Result<(), AllocError> {
    let mut found = found;
    match scene.shown {
        Shown::Bound => {
            ignoring(alloc, &mut found.bound, scene.ignored.as_slice())?;
            print_statement(page, &found.bound);
        }
        Shown::Actions => show_actions(alloc, page, &found.bound)?,
    }
    scene.keep(alloc, found)
}

/// Prints what an authorizer is asked, by one step more than what is bound.
fn show_actions(
    alloc: Global,
    page: &mut Page,
    statement: &BoundStatement,
) -> Result<(), AllocError> {
    let found = actions(alloc, statement)?;
    page.indent();
    print_actions(page, found.as_slice());
    page.outdent();
    Ok(())
}
