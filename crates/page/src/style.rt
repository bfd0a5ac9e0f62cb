/// The style sheet of a page.
pub const STYLE: &[u8] = b"
:root{color-scheme:light dark}
body{font:15px/1.5 system-ui,sans-serif;max-width:72rem;margin:0 auto;padding:1rem}
h1{font-size:1.5rem;margin:0}
h2,summary{font-size:1.1rem;font-weight:600;margin:1.5rem 0 .5rem}
summary{cursor:pointer}
pre{font:13px/1.45 ui-monospace,Menlo,Consolas,monospace;overflow-x:auto;margin:0}
a{color:inherit;text-decoration:underline dotted #888}
nav a{margin-right:1.5ch}
table{border-spacing:0;font:13px/1.45 ui-monospace,Menlo,Consolas,monospace}
section,details{overflow-x:auto}
th{text-align:left;opacity:.7;font-weight:400;padding:0}
td{white-space:pre;padding:0}
.line:target,.chart span:target{background:#fd06}
.number{display:inline-block;width:5ch;margin-right:1ch;white-space:pre;text-align:right;opacity:.6;user-select:none}
.warning{display:inline-block;box-sizing:border-box;max-width:100%;padding-left:6ch;font-weight:600;white-space:pre-wrap}
.chart{position:relative;overflow-x:auto}
.chart span{position:absolute;left:0;width:100%;height:24px}
p.hidden{opacity:.7}
p.outcome{font-size:1.1rem}
footer{margin-top:2rem;opacity:.7}
@media print{details{display:block}a{text-decoration:none}}
";
