//! The beginning of a picture in SVG.

use std::alloc::AllocError;

/// What stands at the beginning: what is shown, of which period and cost, the style, and what colours and marks mean.
#[derive(Clone, Copy)]
pub struct PictureFront<'a> {
    pub shown: &'a str,
    pub period: u32,
    pub cost: u64,
    pub style: &'a str,
    pub legend: &'a str,
}

/// Opens a picture of a size.
pub fn open_svg(text: &mut String, width: u32, height: u32) -> Result<(), AllocError> {
    writeln!(
        text,
        "<svg xmlns=\"http://www.w3.org/2000/svg\" width=\"{width}\" height=\"{height}\" viewBox=\"0 0 {width} {height}\" font-family=\"sans-serif\" font-size=\"12\">"
    )
}

/// Writes the beginning of a picture of a size.
pub fn write_front(
    text: &mut String,
    width: u32,
    height: u32,
    front: PictureFront<'_>,
) -> Result<(), AllocError> {
    let PictureFront {
        shown,
        period,
        cost,
        style,
        legend,
    } = front;
    open_svg(text, width, height)?;
    writeln!(
        text,
        "<title>{shown} of period {period}, cost {cost}</title>{style}<rect width=\"{width}\" height=\"{height}\" fill=\"#fff\"/>"
    )?;
    writeln!(
        text,
        "<text class=\"heading\" x=\"14\" y=\"20\">{shown} of period {period}, cost {cost}</text>"
    )?;
    text.push_str(legend)?;
    text.push('\n')
}
