//! What stands round the parts of the page.

use std::alloc::AllocError;

/// How the page looks, on a screen and on paper. Directions are told by a colour, a mark and a word. What is out of sight is laid out
/// when it comes into sight, so that a large page is there at once. For that the parts of the table of activities are blocks with
/// columns of fixed widths on a screen; on paper it is a table, whose head stands on each sheet.
const STYLE: &str = "<style>\n\
:root{--out:#0b559f;--back:#8a3b00}\n\
body{font:16px/1.45 sans-serif;margin:0 auto;max-width:76rem;padding:0 1rem;color:#111;background:#fff}\n\
h1{font-size:1.6rem}h2{font-size:1.3rem;margin-top:2rem}h3{font-size:1.1rem;margin:1.2rem 0 .4rem}\n\
nav a{margin-right:1rem}.small{font-size:.85rem;color:#444}\n\
.ways{display:flex;flex-wrap:wrap;gap:1rem;align-items:flex-start}\n\
table{border-collapse:collapse;font-variant-numeric:tabular-nums}\n\
caption{text-align:left;font-weight:bold;padding:.2rem 0}\n\
th,td{border:1px solid #bbb;padding:.15rem .5rem;text-align:left;vertical-align:top}\n\
td.n,th.n{text-align:right}thead th{background:#eee}tbody th{white-space:nowrap}\n\
.out caption{color:var(--out)}.back caption{color:var(--back)}\n\
.out{border-left:4px solid var(--out)}.back{border-left:4px double var(--back)}\n\
.way,.picture{content-visibility:auto;contain-intrinsic-size:auto 20rem}.picture{overflow-x:auto}.picture>svg{max-width:100%;height:auto}\n\
.ways h3{flex-basis:100%;margin-bottom:0}\n\
#activities tbody th{font-weight:normal}th span{cursor:pointer}\n\
@media screen{.all{overflow-x:auto}\n\
#activities,#activities caption,#activities thead,#activities tbody{display:block}#activities tbody[hidden]{display:none}\n\
#activities{min-width:58rem;border:solid #bbb;border-width:1px 0 0 1px}\n\
#activities tr{display:grid;grid-template-columns:5rem 7rem 1fr 1fr 7rem 5.5rem 6.5rem 7rem}\n\
#activities th,#activities td{border-width:0 1px 1px 0;overflow-wrap:anywhere;white-space:normal}#activities thead th{white-space:nowrap}\n\
#activities tbody{content-visibility:auto;contain-intrinsic-size:auto 175rem}}\n\
th span::after{content:\" \\2195\";content:\" \\2195\" / \"\"}[aria-sort=ascending] span::after{content:\" \\2191\";content:\" \\2191\" / \"\"}[aria-sort=descending] span::after{content:\" \\2193\";content:\" \\2193\" / \"\"}\n\
input{font:inherit;width:20rem;max-width:100%}\n\
@media print{nav,.tools{display:none}body{max-width:none;font-size:10pt}section{break-before:page}#found{break-before:auto}.way,.picture{content-visibility:visible}.ways{display:block}.way{margin-bottom:.8rem}.way,thead,tr{break-inside:avoid}th span::after{content:none}#diagrams{page:wide}}@page wide{size:landscape}\n\
</style>\n";

/// Sorts the table of activities by a column, and shows those that have all words that are looked for, in the table's parts. Without it
/// the page can be read as it stands.
const SCRIPT: &str = "<script>\n\
const table=document.getElementById('activities'),parts=[...table.tBodies],size=parts.length?parts[0].rows.length:1;\n\
const heads=[...table.tHead.rows[0].cells],count=document.getElementById('count'),compare=new Intl.Collator('en',{numeric:true}).compare;\n\
const rows=parts.flatMap(part=>[...part.rows]);let order=rows,wanted=[],texts;\n\
const show=()=>{const shown=wanted.length?order.filter(row=>wanted.every(word=>texts.get(row).includes(word))):order;\n\
parts.forEach((part,place)=>{const here=shown.slice(place*size,place*size+size);part.replaceChildren(...here);part.hidden=!here.length});\n\
return shown.length};\n\
document.getElementById('search').addEventListener('input',event=>{\n\
texts??=new Map(rows.map(row=>[row,row.textContent.toLowerCase()]));\n\
wanted=event.target.value.toLowerCase().split(/\\s+/).filter(Boolean);\n\
count.textContent=show()+' of '+rows.length+' activities'});\n\
heads.forEach((head,column)=>{const numbers=head.className=='n';\n\
const sort=()=>{const was=head.getAttribute('aria-sort'),falls=was=='ascending'||numbers&&was!='descending';\n\
for(const other of heads)other.removeAttribute('aria-sort');\n\
head.setAttribute('aria-sort',falls?'descending':'ascending');\n\
const keys=new Map(rows.map(row=>{const text=row.cells[column].textContent;return[row,numbers?+text:text]}));\n\
const rises=numbers?(a,b)=>keys.get(a)-keys.get(b):(a,b)=>compare(keys.get(a),keys.get(b));\n\
order=[...order].sort(falls?(a,b)=>rises(b,a):rises);show()};\n\
const button=head.firstChild;button.addEventListener('click',sort);\n\
button.addEventListener('keydown',event=>{if(event.key=='Enter'||event.key==' '){event.preventDefault();sort()}})});\n\
</script>\n";

/// Writes the page's beginning: its title, its style and the way to its parts. The error is a growth that was refused.
pub fn write_page_front(text: &mut String, period: u32, cost: u64) -> Result<(), AllocError> {
    text.push_str("<!DOCTYPE html>\n<html lang=\"en\"><head><meta charset=\"utf-8\">\n")?;
    text.push_str("<meta name=\"viewport\" content=\"width=device-width,initial-scale=1\">\n")?;
    writeln!(
        text,
        "<title>Timetable of period {period}, cost {cost}</title>"
    )?;
    text.push_str(STYLE)?;
    writeln!(
        text,
        "</head><body><header><h1>Timetable of period {period}, cost {cost}</h1>"
    )?;
    text.push_str(
        "<nav aria-label=\"Parts\"><a href=\"#found\">What was found</a><a href=\"#trains\">Trains</a><a href=\"#diagrams\">Diagrams</a><a href=\"#slack\">Slack</a></nav></header><main>\n",
    )
}

/// Writes the page's end, with its script. The error is a growth that was refused.
pub fn write_page_end(text: &mut String) -> Result<(), AllocError> {
    text.push_str("</main>\n")?;
    text.push_str(SCRIPT)?;
    text.push_str("</body></html>\n")
}
