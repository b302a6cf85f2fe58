//! What is found of a case.
use crate::case::Case;
use gateway_play::{ended_over, log_text, push_next_run, run_all, site_of};
use gw_base::Bytes;
use gw_site::{MemSink, MemSource, NoSite, Site, Source};
use row_texts::push_form;
use sim_script::ImageKind;
use sim_site::SimSite;
use std::alloc::{AllocError, Global};
use std::str;
use std::test::Fail;

/// The input of a case: this text. Where nothing may be read, the first read fails.
fn input_of(alloc: Global, case: &Case, text: &str) -> Result<MemSource, AllocError> {
    let fails = if case.is_unread { Some(0) } else { None };
    Ok(MemSource::new(Bytes::copied(alloc, text.as_bytes())?, fails))
}

/// Adds what was written and, where the status is another than that of the case, that it is.
fn push_ended(found: &mut String, case: &Case, out: &MemSink, status: u8) -> Result<(), Fail> {
    found.push_str(str::from_utf8(out.bytes().as_slice())?)?;
    if status != case.status {
        found.push_str("status that is returned: another\n")?;
    }
    Ok(())
}

/// Adds, where nothing may be read, that something was: then the first read was made before, and the next one doesn't fail.
fn push_read(found: &mut String, case: &Case, input: &mut MemSource) -> Result<(), AllocError> {
    if case.is_unread && input.read(&mut [0; 4096]).is_ok() {
        found.push_str("the input was read\n")?;
    }
    Ok(())
}

/// What the top call over a site with this input adds to what is found.
fn push_written<S: Site>(
    alloc: Global,
    found: &mut String,
    case: &Case,
    site: &mut S,
    input: &mut MemSource,
) -> Result<(), Fail> {
    let mut out = MemSink::new(alloc, None, 0);
    let status = ended_over(alloc, &case.words, site, input, &mut out)?;
    push_ended(found, case, &out, status)
}

/// What the top call over a site, with this text as its input, adds to what is found.
fn push_called<S: Site>(
    alloc: Global,
    found: &mut String,
    case: &Case,
    site: &mut S,
    text: &str,
) -> Result<(), Fail> {
    let mut input = input_of(alloc, case, text)?;
    push_written(alloc, found, case, site, &mut input)?;
    push_read(found, case, &mut input)?;
    Ok(())
}

/// What a replay of its script prints.
fn replayed(alloc: Global, case: &Case) -> Result<String, Fail> {
    let mut found = String::new(alloc);
    push_called(alloc, &mut found, case, &mut NoSite::new(), &case.script)?;
    Ok(found)
}

/// Lets the power fail after so many calls, if it is to fail.
fn stop(site: &mut SimSite, calls: Option<u64>) {
    if let Some(calls) = calls {
        site.stop_after(calls, ImageKind::Old);
    }
}

/// The site that plays its script.
fn site_of_case(alloc: Global, case: &Case) -> Result<SimSite, Fail> {
    let mut site = site_of(alloc, &case.script, &case.file)?;
    stop(&mut site, case.calls);
    Ok(site)
}

/// What the top call over a site prints.
fn printed_of(alloc: Global, case: &Case, site: &mut SimSite) -> Result<String, Fail> {
    let mut printed = String::new(alloc);
    push_called(alloc, &mut printed, case, site, &case.configuration)?;
    Ok(printed)
}

/// The log of a site, and after it this text.
fn log_and(alloc: Global, site: &SimSite, form: &str, text: &str) -> Result<String, Fail> {
    let mut found = log_text(alloc, site)?;
    push_form(&mut found, form, &[text])?;
    Ok(found)
}

/// The log of a site that is served, and what is printed.
fn served_over(alloc: Global, case: &Case, site: &mut SimSite) -> Result<String, Fail> {
    let printed = printed_of(alloc, case, site)?;
    log_and(alloc, site, "--\n%", &printed)
}

/// The log of the site that is served, and what is printed.
fn served(alloc: Global, case: &Case) -> Result<String, Fail> {
    let mut site = site_of_case(alloc, case)?;
    served_over(alloc, case, &mut site)
}

/// The power fails, and leaves all that was written; then the engine runs again.
fn begin_again(alloc: Global, site: &mut SimSite, statuses: &mut String) -> Result<(), AllocError> {
    site.stop_after(0, ImageKind::New);
    push_next_run(alloc, site, statuses)
}

/// The statuses of the runs over a site: those of its script, and where it is so wished that of one more after a power failure.
fn statuses_over(
    alloc: Global,
    site: &mut SimSite,
    is_begun_again: bool,
) -> Result<String, AllocError> {
    let mut statuses = run_all(alloc, site)?;
    if is_begun_again {
        begin_again(alloc, site, &mut statuses)?;
    }
    Ok(statuses)
}

/// The log of the runs over a site, and their statuses.
fn runs_over(alloc: Global, site: &mut SimSite, is_begun_again: bool) -> Result<String, Fail> {
    let statuses = statuses_over(alloc, site, is_begun_again)?;
    log_and(alloc, site, "statuses%\n", &statuses)
}

/// The log of its runs, and their statuses.
fn runs(alloc: Global, case: &Case) -> Result<String, Fail> {
    let mut site = site_of_case(alloc, case)?;
    runs_over(alloc, &mut site, case.is_begun_again)
}

/// Of the lines of a log those for what was linked and sent, and that of the status.
pub(crate) fn sends_of(alloc: Global, log: &str) -> Result<String, AllocError> {
    let mut lines = String::new(alloc);
    for line in log.split('\n') {
        if line.contains(" out ") || line.starts_with("link ") || line.starts_with("status ") {
            push_form(&mut lines, "%\n", &[line])?;
        }
    }
    Ok(lines)
}

/// What is found of a case.
pub(crate) fn found_of(alloc: Global, case: &Case) -> Result<String, Fail> {
    if case.is_served() {
        served(alloc, case)
    } else if case.is_of_runs {
        runs(alloc, case)
    } else {
        replayed(alloc, case)
    }
}
