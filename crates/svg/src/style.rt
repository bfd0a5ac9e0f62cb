/// The style sheet of a drawing: light or dark, as the reader's screen is set. Bars differ in how they are filled, and not only
/// in colour.
pub const STYLE: &[u8] = b"
svg{font:12px ui-monospace,Menlo,Consolas,monospace;background:#fff;color:#1f2328}
text{fill:currentColor}
rect{fill:none}
.outcome,.note,text.tick{fill:#59636e}
text.tick{text-anchor:middle}
line.tick{stroke:#d8dee4}
.task{stroke-width:1.5}
.done{stroke:#1a7f37;fill:#1a7f37;fill-opacity:.2}
.cancelled{stroke:#9a6700;fill:url(#slanted)}
.raised{stroke:#cf222e;fill:url(#crossed)}
.running{stroke:#59636e;stroke-dasharray:2 3}
.scope,.nursery{stroke:#0969da;fill:#0969da;fill-opacity:.1}
.nursery{stroke-dasharray:5 3}
.shield{stroke-width:3}
.from{fill:#d4a72c;fill-opacity:.8}
path{fill:none}
.slanted,.cross,.deadline{stroke:#9a6700}
.crossed,.arrow{stroke:#cf222e}
.slanted,.crossed{stroke-opacity:.55}
.cross{stroke-width:2.5}
.deadline{stroke-width:1.5;fill:#9a6700}
.dot,.head{fill:#cf222e}
.arrow{stroke-width:1.5;marker-end:url(#arrow)}
@media (prefers-color-scheme:dark){
svg{background:#0d1117;color:#e6edf3}
.outcome,.note,text.tick{fill:#9198a1}
line.tick{stroke:#3d444d}
.done{stroke:#3fb950;fill:#3fb950}
.cancelled{stroke:#d29922}
.raised{stroke:#f85149}
.running{stroke:#9198a1}
.scope,.nursery{stroke:#4493f8;fill:#4493f8}
.slanted,.cross,.deadline{stroke:#d29922}
.deadline{fill:#d29922}
.crossed,.arrow{stroke:#f85149}
.dot,.head{fill:#f85149}
}
";
