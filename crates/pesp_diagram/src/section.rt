//! The part of a page with the diagrams.

use crate::drawing::write_pictures;
use pesp_problem::Instance;
use pesp_report::Names;
use std::alloc::{AllocError, Global};

/// Writes the part of a page with the diagrams of the lines that names tell. `times` has a time below the period for each event, in
/// their order. Without names it says that there are none. The error is a growth that was refused.
pub fn write_diagrams_section(
    alloc: Global,
    text: &mut String,
    instance: &Instance,
    times: &[u32],
    names: Option<&Names>,
) -> Result<(), AllocError> {
    text.push_str("<section id=\"diagrams\"><h2>Diagrams</h2>\n")?;
    match names {
        Some(names) => {
            text.push_str(
                "<p>Each line's stations stand below each other, and the time goes across one period. A train out goes down, in blue, and one back goes up, in brown and dashed; the table of trains has the same times in words.</p>\n",
            )?;
            write_pictures(alloc, text, instance, times, names)?;
            text.push_str("</section>\n")
        }
        None => text.push_str(
            "<p>There are none without names of lines and stations (<code>--names</code>).</p></section>\n",
        ),
    }
}
